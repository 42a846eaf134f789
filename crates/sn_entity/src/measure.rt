//! The numbers of parameters, by their units and limits.
ghost use Rattle.std.specs.Prelude.{◌≡◌, ◌≤◌, ◌↔◌, pos, IsTrue, IfOk, IfErr, OnOk, unsigned_abs, cond};
ghost use Rattle.sn_geom.specs.Decimal.{Decimal, IsNumber, IsNumberText};
ghost use Rattle.sn_entity.specs.Measure.{IsSmall, IsWithin, Measures, measure, length_from, coordinate, diameter, edge_radius, feed, speed, thousandths, ratio};
ghost use Rattle.sn_entity.specs.Refusal.{IsRefused};

use crate::refusal::Refusal;
use sn_geom::{
    Dec, DecFault, FEED_SCALE, LEAST_DIAMETER, MOST_DIAMETER, MOST_EDGE, MOST_RATE, MOST_VALUE,
    PER_MM, PER_ONE, REACH, SPEED_SCALE, read_dec,
};
use std::marker::Model;

/// The greatest size of a ratio of a direction, in thousandths.
const MOST_RATIO: u32 = 2_000 * PER_ONE;

const _: () = prove!(MOST_RATIO == 2_000_000);

/// How a number is taken: times a factor, rounded, its sign kept or not, from the least to the greatest value.
#[derive(Drop)]
pub struct Measure {
    factor: u32,
    signed: bool,
    least: i32,
    greatest: i32,
}

impl Model for Measure {
    ghost use Rattle.sn_entity.specs.Measure.{Measure};

    ghost Value = { Measure };

    ghost view = { λ m. record { factor = m.factor; signed = m.signed; least = m.least; greatest = m.greatest } };
}

impl Measure {
    /// The value that a rounded number gives.
    fn value_of(&self, rounded: i32) -> i32
        requires { unsigned_abs rounded ≤ MOST_VALUE }
        ensures { result ≡ cond self.now.signed rounded (pos (unsigned_abs rounded)) }
    {
        if self.signed { rounded } else { rounded.abs() }
    }

    /// Whether a value is within the limits.
    fn is_within(&self, value: i32) -> bool
        ensures { IsTrue result ↔ IsWithin self.now value }
    {
        self.least <= value && value <= self.greatest
    }

    /// The value of a number's text.
    pub fn read(&self, text: &[u8]) -> Result<i32, Refusal>
        requires { IsSmall self.now }
        ensures found { IfOk result (Measures self.now text.now) }
        ensures refused { IfErr result (λ why. IsRefused why (IsNumberText text.now) (Measures self.now text.now)) }
    {
        let decimal = decimal_of(text)?;
        let Ok(rounded) = decimal.scaled(self.factor, MOST_VALUE) else {
            return Err(Refusal::Range);
        };
        let value = self.value_of(rounded);
        if self.is_within(value) {
            Ok(value)
        } else {
            Err(Refusal::Range)
        }
    }
}

/// The number of a text.
fn decimal_of(text: &[u8]) -> Result<Dec, Refusal>
    ensures found { IfOk result (IsNumber text.now) }
    ensures every { (d : Decimal) → IsNumber text.now d → result ≡ Ok d }
    ensures refused { IfErr result (λ why. IsRefused why (IsNumberText text.now) (IsNumber text.now)) }
{
    match read_dec(text) {
        Ok(decimal) => Ok(decimal),
        Err(DecFault::NotNumber) => Err(Refusal::Kind),
        Err(DecFault::OutOfRange) => Err(Refusal::Range),
    }
}

/// Whether a text is a number's text.
pub fn is_number_text(text: &[u8]) -> bool
    ensures { IsTrue result ↔ IsNumberText text.now }
{
    match read_dec(text) {
        Ok(_) => true,
        Err(DecFault::OutOfRange) => true,
        Err(DecFault::NotNumber) => false,
    }
}

/// That a number's text writes 0, exactly.
pub fn read_zero(text: &[u8]) -> Result<(), Refusal>
    ensures found { OnOk result ((d : Decimal) × IsNumber text.now d × (d.digits ≡ 0)) }
    ensures refused { IfErr result (λ why. IsRefused why (IsNumberText text.now) (λ d. IsNumber text.now d × (d.digits ≡ 0))) }
{
    let decimal = decimal_of(text)?;
    if decimal.digits == 0 {
        Ok(())
    } else {
        Err(Refusal::Range)
    }
}

fn signed_measure(factor: u32, least: i32, greatest: i32) -> Measure
    ensures { result ≡ measure factor least greatest }
{
    Measure {
        factor,
        signed: true,
        least,
        greatest,
    }
}

/// A length from this one on, in units of length.
pub fn length_from(least: i32) -> Measure
    ensures { result ≡ length_from least }
{
    signed_measure(PER_MM, least, REACH as i32)
}

/// A coordinate, in units of length.
pub fn coordinate() -> Measure
    ensures { result ≡ coordinate }
{
    length_from(-(REACH as i32))
}

/// The diameter of a tool, in units of length.
pub fn diameter() -> Measure
    ensures { result ≡ diameter }
{
    signed_measure(PER_MM, LEAST_DIAMETER as i32, MOST_DIAMETER as i32)
}

/// The edge radius of a tool, in units of length.
pub fn edge_radius() -> Measure
    ensures { result ≡ edge_radius }
{
    signed_measure(PER_MM, 0, MOST_EDGE as i32)
}

/// A feed in mm/min, of one in m/s.
pub fn feed() -> Measure
    ensures { result ≡ feed }
{
    signed_measure(FEED_SCALE, 1, MOST_RATE as i32)
}

/// The speed of a spindle in rev/min, of one in rev/s with or without a sign.
pub fn speed() -> Measure
    ensures { result ≡ speed }
{
    Measure {
        factor: SPEED_SCALE,
        signed: false,
        least: 1,
        greatest: MOST_RATE as i32,
    }
}

/// The value of a variable or a constant, in thousandths.
pub fn thousandths() -> Measure
    ensures { result ≡ thousandths }
{
    signed_measure(PER_ONE, -(MOST_VALUE as i32), MOST_VALUE as i32)
}

/// A ratio of a direction, in thousandths.
pub fn ratio() -> Measure
    ensures { result ≡ ratio }
{
    signed_measure(PER_ONE, -(MOST_RATIO as i32), MOST_RATIO as i32)
}
