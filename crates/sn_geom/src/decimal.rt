//! Numbers as text, and their exact values.
ghost use Rattle.std.specs.Prelude.{◌≡◌, ℕ, ◌*◌, ◌^◌, ◌≤◌, ◌<◌, ◌↔◌, ℤ, pos, ◌-ℤ◌, length, SomeIff, MatchOption, IfSome, IfOk, IfErr, unsigned_abs};
ghost use Rattle.std.specs.Str.Parse.{AllDigits, digits_value, digits_value_after};
ghost use Rattle.sn_geom.specs.Decimal.{Decimal, HasDecSize, IsNumber, IsNumberText, IsPastLimits, ScalesTo, HasOneNumber, HasOneReading, ScalesToOne, with_sign};
ghost use Rattle.sn_geom.specs.NumberPieces.{number_of};
ghost use Rattle.sn_geom.specs.Rounding.{RoundsTo, RoundsToOne};

mod text;

use crate::limits::{PER_MM, REACH};
use crate::units::Um;
use std::marker::Model;
use text::{Parts, Power, split};

/// The most bytes of a number's text.
const MOST_BYTES: usize = 64;

/// The greatest whole number of 30 digits: a number has no more significant ones.
const GREATEST_DIGITS: u128 = 999_999_999_999_999_999_999_999_999_999;

/// The greatest size of an exponent.
const GREATEST_EXPONENT: u128 = 99;

/// Why a text gives no number, or a number no result.
#[derive(Clone, Copy, Debug, PartialEq, Eq)]
pub enum DecFault {
    /// The text is no number's text.
    NotNumber,
    /// The number, or the result, passes a limit.
    OutOfRange,
}

/// A number in decimal: `digits * 10 ^ exp`, below zero where `neg` is set.
///
/// A number keeps the decimals of its text, so that `1` and `1.0` have one value and are two `Dec`s.
#[derive(Clone, Copy, Debug, PartialEq, Eq)]
pub struct Dec {
    pub neg: bool,
    pub digits: u128,
    pub exp: i16,
}

impl Model for Dec {
    ghost Value = { Decimal };

    ghost view = { λ d. record { negative = d.neg; digits = d.digits; exponent = d.exp } };

    ghost invariant = { λ d. HasDecSize (record { negative = d.neg; digits = d.digits; exponent = d.exp }) };

    ghost inverse = { λ d. record { neg = d.negative; digits = d.digits; exp = d.exponent } };
}

/// The number that a text writes, by this project's own rules.
///
/// A number's text has an optional sign and at least one digit; then optionally a point and any digits, which may be
/// none; then optionally `E`, an optional sign and at least one digit. Any other text is `NotNumber`, however long. A
/// number's text is `OutOfRange` where it has more than 64 bytes, more than 30 digits from the first that is not 0 on,
/// or an exponent above 99 in size.
pub fn read_dec(text: &[u8]) -> Result<Dec, DecFault>
    ensures number { IfOk result (λ d. IsNumber text.now d) }
    ensures every { (d : Decimal) → IsNumber text.now d → result ≡ Ok d }

    ensures not_number { (result ≡ Err DecFault.NotNumber) ↔ (IsNumberText text.now → ⊥) }
    ensures out_of_range { (result ≡ Err DecFault.OutOfRange) ↔ IsPastLimits text.now }
{
    let Some(parts) = split(text) else {
        return Err(DecFault::NotNumber);
    };
    if text.len() > MOST_BYTES {
        return Err(DecFault::OutOfRange);
    }
    dec_of(&parts).ok_or(DecFault::OutOfRange)
}

/// The number of these parts, where its digits and its exponent are within the limits.
fn dec_of(parts: &Parts) -> Option<Dec>
    requires whole { AllDigits 10 parts.now.whole.now }
    requires fraction { AllDigits 10 parts.now.fraction.now }
    requires exponent { AllDigits 10 parts.now.exponent.digits.now }
    requires short { length parts.now.fraction.now ≤ 64 }
    ensures { let p = parts.now in
        let exponent = p.exponent in
        let number = number_of p.negative p.whole.now p.fraction.now exponent.negative exponent.digits.now in
        SomeIff result ((number.digits < 10 ^ 30) × (digits_value 10 exponent.digits.now ≤ 99)) number }
{
    let whole = number_up_to(GREATEST_DIGITS, 0, parts.whole)?;
    let digits = number_up_to(GREATEST_DIGITS, whole, parts.fraction)?;
    let exp = power_of(&parts.exponent, parts.fraction.len())?;
    Some(Dec {
        neg: parts.negative,
        digits,
        exp,
    })
}

/// The exponent less the count of decimals, where the exponent is within its limit.
fn power_of(exponent: &Power, decimals: usize) -> Option<i16>
    requires digits { AllDigits 10 exponent.now.digits.now }
    requires few { decimals ≤ 64 }
    ensures value { let size = digits_value 10 exponent.now.digits.now in
        SomeIff result (size ≤ 99) (with_sign exponent.now.negative size -ℤ pos decimals) }
    ensures within { IfSome result (λ e. unsigned_abs e ≤ 200) }
{
    let size = number_up_to(GREATEST_EXPONENT, 0, exponent.digits)? as i16;
    let exponent = if exponent.negative { -size } else { size };
    Some(exponent - decimals as i16)
}

/// The number that the digits write behind those of `start`, where it is at most `most`.
fn number_up_to(most: u128, start: u128, digits: &[u8]) -> Option<u128>
    requires digits { AllDigits 10 digits.now }
    requires start { start ≤ most }
    requires most { most < 10 ^ 30 }
    ensures { let number = digits_value_after 10 start digits.now in
        SomeIff result (number ≤ most) number }
{
    let mut number = start;
    for digit in digits {
        number = number * 10 + u128::from(*digit - b'0');
        if number > most {
            return None;
        }
    }
    Some(number)
}

impl Dec {
    /// The value times `k`, rounded to the nearest whole number, a half away from zero.
    ///
    /// `OutOfRange` where that is above `max` in size.
    pub fn scaled(&self, k: u32, max: u32) -> Result<i32, DecFault>
        requires factor { k ≤ 60_000 }
        requires bound { max ≤ 2_000_000_000 }
        ensures value { IfOk result (λ z. ScalesTo self.now k z) }
        ensures within { IfOk result (λ z. unsigned_abs z ≤ max) }
        ensures every { (z : ℤ) → ScalesTo self.now k z → unsigned_abs z ≤ max → result ≡ Ok z }

        ensures out_of_range { (result ≡ Err DecFault.OutOfRange)
            ↔ ((z : ℤ) × ScalesTo self.now k z × (max < unsigned_abs z)) }
        ensures fault { IfErr result (λ e. e ≡ DecFault.OutOfRange) }
    {
        let Some(size) = self.scaled_size(k) else {
            return Err(DecFault::OutOfRange);
        };
        if size > u128::from(max) {
            return Err(DecFault::OutOfRange);
        }
        let size = size as i32;
        Ok(if self.neg { -size } else { size })
    }

    /// The size of the value times `k`, rounded, where it is below 2 ^ 128.
    fn scaled_size(&self, k: u32) -> Option<u128>
        requires { k ≤ 60_000 }
        ensures { let scales = λ (m : ℕ). ScalesTo self.now k (with_sign self.now.negative m) in
            MatchOption result ((m : ℕ) × scales m × (2 ^ 128 ≤ m)) scales }
    {
        let product = self.digits * u128::from(k);
        let places = u32::from(self.exp.unsigned_abs());
        if self.exp < 0 {
            Some(lowered(product, places))
        } else {
            raised(product, places)
        }
    }

    /// The length of this many millimetres, rounded to tenths of a micrometre as by [`Dec::scaled`].
    ///
    /// `OutOfRange` where that is above `REACH` in size.
    pub fn to_um(&self) -> Result<Um, DecFault>
        ensures value { IfOk result (λ um. ScalesTo self.now PER_MM um) }
        ensures within { IfOk result (λ um. unsigned_abs um ≤ REACH) }
        ensures every { (z : ℤ) → ScalesTo self.now PER_MM z → unsigned_abs z ≤ REACH → result ≡ Ok z }

        ensures out_of_range { (result ≡ Err DecFault.OutOfRange)
            ↔ ((z : ℤ) × ScalesTo self.now PER_MM z × (REACH < unsigned_abs z)) }
        ensures fault { IfErr result (λ e. e ≡ DecFault.OutOfRange) }
    {
        let v = self.scaled(PER_MM, REACH)?;
        Um::new(v).ok_or(DecFault::OutOfRange)
    }
}

/// `n * 10 ^ places`, where it is below 2 ^ 128.
fn raised(n: u128, places: u32) -> Option<u128>
    ensures { SomeIff result (n * 10 ^ places < 2 ^ 128) (n * 10 ^ places) }
{
    if n == 0 {
        return Some(0);
    }
    n.checked_mul(10u128.checked_pow(places)?)
}

/// `n / 10 ^ places`, rounded.
fn lowered(n: u128, places: u32) -> u128
    requires { n < 2 ^ 127 }
    ensures { RoundsTo (pos n) (10 ^ places) (pos result) }
{
    let Some(unit) = 10u128.checked_pow(places) else {
        return 0;
    };
    let quotient = n / unit;
    let rest = n % unit;
    if rest >= unit - rest {
        quotient + 1
    } else {
        quotient
    }
}

/// A text is read as a number in one way alone.
pub fn one_reading()
    ensures parts { HasOneReading }
    ensures number { HasOneNumber }
{}

/// A fraction is rounded to one whole number alone, and so is a number times another.
pub fn one_rounding()
    ensures fraction { RoundsToOne }
    ensures product { ScalesToOne }
{}
