//! Lengths, and the plain types that are made of them.
ghost use Rattle.std.specs.Prelude.{◌≡◌, ℤ, SomeIff};
ghost use Rattle.sn_geom.specs.Length.{IsLength};

use crate::limits::REACH;
use std::alloc::{AllocError, AllocFailed};
use std::marker::Model;

/// Want of memory. It is merged with no other cause.
#[derive(Clone, Copy, Debug, PartialEq, Eq)]
pub struct Memory;

impl From<AllocError> for Memory {
    fn from(_error: AllocError) -> Memory {
        Memory
    }
}

impl<T: Drop> From<AllocFailed<T>> for Memory {
    fn from(_error: AllocFailed<T>) -> Memory {
        Memory
    }
}

/// A coordinate or a length in tenths of a micrometre, at most `REACH` in size.
#[derive(Clone, Copy, Debug, PartialEq, Eq)]
pub struct Um(i32);

impl Model for Um {
    ghost Value = { ℤ };

    ghost view = { λ um. um.0 };

    ghost invariant = { λ um. IsLength um.0 };

    ghost inverse = { λ z. record { 0 = z } };
}

impl Um {
    /// The length of `v` tenths of a micrometre, where that is in the range.
    pub fn new(v: i32) -> Option<Um>
        ensures { SomeIff result (IsLength v) v }
    {
        if v.unsigned_abs() <= REACH {
            Some(Um(v))
        } else {
            None
        }
    }

    /// The length of `v` units, which is known to be in the range.
    pub fn of(v: i32) -> Um
        requires { IsLength v }
        ensures { result ≡ v }
    {
        Um(v)
    }

    /// The length in tenths of a micrometre.
    pub fn get(self) -> i32
        ensures value { result ≡ self }
        ensures range { IsLength self }
    {
        self.0
    }
}

/// A point in the plane.
#[derive(Clone, Copy, Debug, PartialEq, Eq)]
pub struct Pt {
    pub x: Um,
    pub y: Um,
}

/// A point in space.
#[derive(Clone, Copy, Debug, PartialEq, Eq)]
pub struct Pt3 {
    pub x: Um,
    pub y: Um,
    pub z: Um,
}

/// A segment in the plane, or a point where its ends are one.
#[derive(Clone, Copy, Debug, PartialEq, Eq)]
pub struct Seg {
    pub a: Pt,
    pub b: Pt,
}

/// The body of a tool: its diameter and, from the tip up, the length of its point, in tenths of a micrometre.
///
/// From the height of the point length up, the tool cuts with its whole diameter.
#[derive(Clone, Copy, Debug, PartialEq, Eq)]
pub struct Body {
    pub d: u32,
    pub e: u32,
}

/// A cell: the node in column `i` and row `j` of the grid, and the slab of one unit of length from `z` up.
#[derive(Clone, Copy, Debug, PartialEq, Eq)]
pub struct Cell {
    pub i: i32,
    pub j: i32,
    pub z: i32,
}
