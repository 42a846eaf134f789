//! The number of a word.
ghost use Rattle.std.specs.Prelude.{◌≡◌, ◌+◌, ◌-◌, ◌*◌, ◌^◌, ◌≤◌, length, min, drop};
ghost use Rattle.std.specs.List.{prefix_len, list_all};
ghost use Rattle.std.specs.Str.Parse.{AllDigits, digits_value_after};
ghost use Rattle.sn_geom.specs.Decimal.{with_sign};
ghost use Rattle.sn_geom.specs.LineText as meaning;
ghost use Rattle.sn_geom.specs.LineText.{padded};
ghost use Rattle.sn_block.specs.Numbers.{IsNumberOf};

use crate::byte::{behind, is_digit, is_sign};

/// Sizes are counted up to this one, which is above all limits of words.
pub const MOST_SIZE: u64 = 100_000_000;

/// A number: its sign, its size as a count of the unit up to `MOST_SIZE`, and whether it is a whole count of the unit.
#[derive(Clone, Copy)]
pub struct Number {
    pub negative: bool,
    pub size: u64,
    pub fine: bool,
}

impl Number {
    /// The count of the unit.
    pub fn value(&self) -> i32
        requires { self.now.size ≤ MOST_SIZE }
        ensures { result ≡ with_sign self.now.negative self.now.size }
    {
        let size = self.size as i32;
        if self.negative { -size } else { size }
    }
}

/// The number that the text is, its unit having these places, where it is a number.
pub fn read_number(text: &[u8], places: usize) -> Option<Number>
    ensures { IsNumberOf places text.now result }
{
    let digits = unsigned(text);
    let point = count_digits(digits);
    let fraction = behind(digits, point);
    if !is_fraction(fraction) {
        return None;
    }
    let decimals = behind_point(fraction);
    if point + decimals.len() == 0 {
        return None;
    }
    let whole = number_behind(MOST_SIZE, 0, &digits[..point]);
    Some(Number {
        negative: is_negative(text),
        size: padded_size(whole, decimals, places),
        fine: is_fine(decimals, places),
    })
}

#[tactic(auto, unfolding(sn_geom::specs::LineText::is_negative))]
fn is_negative(text: &[u8]) -> bool
    ensures { result ≡ meaning.is_negative text.now }
{
    text.first() == Some(&b'-')
}

/// The text behind its sign.
#[tactic(auto, unfolding(sn_geom::specs::LineText::unsigned))]
fn unsigned(text: &[u8]) -> &[u8]
    ensures { result.now ≡ meaning.unsigned text.now }
{
    if !text.is_empty() && is_sign(text[0]) {
        &text[1..]
    } else {
        text
    }
}

/// How many digits the text begins with.
fn count_digits(text: &[u8]) -> usize
    ensures count { result ≡ prefix_len meaning.is_digit text.now }
    ensures within { result ≤ length text.now }
{
    text.iter().take_while(|b| is_digit(**b)).count()
}

pub fn are_digits(text: &[u8]) -> bool
    ensures { result ≡ list_all meaning.is_digit text.now }
{
    text.iter().all(|b| is_digit(*b))
}

/// Nothing, or a point and digits.
fn is_fraction(text: &[u8]) -> bool
    ensures { result ≡ meaning.is_fraction text.now }
{
    text.is_empty() || text[0] == b'.' && are_digits(&text[1..])
}

fn behind_point(fraction: &[u8]) -> &[u8]
    ensures { result.now ≡ drop 1 fraction.now }
{
    if fraction.is_empty() {
        fraction
    } else {
        &fraction[1..]
    }
}

/// No digit but 0 stands behind these places.
fn is_fine(decimals: &[u8], places: usize) -> bool
    ensures { result ≡ meaning.are_zeros (drop places decimals.now) }
{
    decimals.len() <= places || are_zeros(&decimals[places..])
}

fn are_zeros(digits: &[u8]) -> bool
    ensures { result ≡ meaning.are_zeros digits.now }
{
    digits.iter().all(|b| *b == b'0')
}

/// The number with the digit behind it, up to `most`.
fn with_digit(most: u64, number: u64, digit: u8) -> u64
    requires most { most ≤ 2 ^ 40 }
    requires number { number ≤ most }
    requires low { 48 ≤ digit }
    requires high { digit ≤ 57 }
    ensures { result ≡ min most (number * 10 + (digit - 48)) }
{
    (number * 10 + u64::from(digit - b'0')).min(most)
}

/// The number with the digits behind it, up to `most`.
pub fn number_behind(most: u64, start: u64, digits: &[u8]) -> u64
    requires most { most ≤ 2 ^ 40 }
    requires digits { AllDigits 10 digits.now }
    requires start { start ≤ most }
    ensures { result ≡ min most (digits_value_after 10 start digits.now) }
{
    let mut number = start;
    for digit in digits {
        number = with_digit(most, number, *digit);
    }
    number
}

/// The number with these places of the digits behind it, zeros where there are no more, up to `MOST_SIZE`.
fn padded_size(start: u64, digits: &[u8], places: usize) -> u64
    requires digits { AllDigits 10 digits.now }
    requires start { start ≤ MOST_SIZE }
    ensures { result ≡ min MOST_SIZE (digits_value_after 10 start (padded places digits.now)) }
{
    if digits.len() >= places {
        return number_behind(MOST_SIZE, start, &digits[..places]);
    }
    let size = number_behind(MOST_SIZE, start, digits);
    with_zeros(size, places - digits.len())
}

fn with_zeros(start: u64, count: usize) -> u64
    requires start { start ≤ MOST_SIZE }
    ensures { result ≡ min MOST_SIZE (digits_value_after 10 start (meaning.zeros count)) }
{
    let mut size = start;
    for _place in 0..count {
        size = with_digit(MOST_SIZE, size, b'0');
    }
    size
}
