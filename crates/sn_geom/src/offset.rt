//! Offsets from one point of the plane to another, and their products.
ghost use Rattle.std.specs.Prelude.{◌≡◌, ◌+◌, ◌*◌, ◌^◌, ◌≤◌, ◌<◌, ℤ, ◌+ℤ◌, ◌-ℤ◌, ◌*ℤ◌, unsigned_abs};
ghost use Rattle.sn_geom.specs.Offset.{IsDifference};
ghost use Rattle.sn_geom.specs.Sweep.{square};

use crate::limits::REACH;
use crate::units::{Pt, Um};
use std::marker::Model;

/// The difference of two coordinates, in tenths of a micrometre.
#[derive(Clone, Copy)]
pub struct Difference(i64);

impl Model for Difference {
    ghost Value = { ℤ };

    ghost view = { λ difference. difference.0 };

    ghost invariant = { λ difference. IsDifference difference.0 };

    ghost inverse = { λ z. record { 0 = z } };
}

impl Difference {
    fn between(from: Um, to: Um) -> Difference
        ensures { result ≡ to -ℤ from }
    {
        Difference(i64::from(to.get()) - i64::from(from.get()))
    }

    fn times(self, other: Difference) -> i64
        ensures value { result ≡ self *ℤ other }
        ensures size { unsigned_abs result ≤ 4 * (REACH * REACH) }
    {
        self.0 * other.0
    }

    fn square(self) -> u64
        ensures value { result ≡ square self }
        ensures size { result ≤ 4 * (REACH * REACH) }
    {
        let size = self.0.unsigned_abs();
        size * size
    }
}

/// The offset of one point of the plane from another.
#[derive(Clone, Copy)]
pub struct Offset {
    pub x: Difference,
    pub y: Difference,
}

impl Offset {
    /// The offset of `to` from `from`.
    pub fn between(from: &Pt, to: &Pt) -> Offset
        ensures x { result.x ≡ to.now.x -ℤ from.now.x }
        ensures y { result.y ≡ to.now.y -ℤ from.now.y }
    {
        Offset {
            x: Difference::between(from.x, to.x),
            y: Difference::between(from.y, to.y),
        }
    }

    /// The scalar product.
    pub fn dot(&self, other: &Offset) -> i64
        ensures value { result ≡ self.now.x *ℤ other.now.x +ℤ self.now.y *ℤ other.now.y }
        ensures size { unsigned_abs result ≤ 8 * (REACH * REACH) }
    {
        self.x.times(other.x) + self.y.times(other.y)
    }

    /// The vector product's part along the third axis.
    pub fn cross(&self, other: &Offset) -> i64
        ensures value { result ≡ self.now.x *ℤ other.now.y -ℤ self.now.y *ℤ other.now.x }
        ensures size { unsigned_abs result ≤ 8 * (REACH * REACH) }
    {
        self.x.times(other.y) - self.y.times(other.x)
    }

    /// The square of the vector product, so small that four times it is below 2^110.
    pub fn cross_squared(&self, other: &Offset) -> u128
        ensures value { result ≡ square (self.now.x *ℤ other.now.y -ℤ self.now.y *ℤ other.now.x) }
        ensures size { result < 2 ^ 108 }
    {
        let cross = u128::from(self.cross(other).unsigned_abs());
        cross * cross
    }

    /// The square of the length.
    pub fn length_squared(&self) -> u64
        ensures value { result ≡ square self.now.x + square self.now.y }
        ensures size { result ≤ 8 * (REACH * REACH) }
    {
        self.x.square() + self.y.square()
    }
}
