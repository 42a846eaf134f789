//! What an instance shows.
ghost use Rattle.std.specs.Prelude.{◌≡◌, ◌++◌, ◌∷◌, [], OnOk};
ghost use Rattle.sn_entity.specs.Given.{num_at, triple_at, text_at, one_at, many_at};

use crate::row::RowId;
use smallvec::SmallVec;
use sqlite_items::Items;
use std::alloc::{AllocError, Global};
use std::marker::Model;

/// Bytes, seen as their list.
pub type Bytes = Items<u8>;

/// Values, seen as their list.
pub type Values = Items<Value>;

/// Numbers of instances, seen as their list. Up to eight are kept without an allocation.
#[derive(Drop)]
pub struct Refs {
    numbers: SmallVec<u32, 8>,
}

impl Model for Refs {
    ghost use Rattle.std.specs.Prelude.{List, ℕ};

    ghost Value = { List ℕ };

    ghost view = { λ a. a.numbers.items };
}

impl Refs {
    pub(crate) fn new(alloc: Global) -> Refs
        ensures { result ≡ [] }
    {
        Refs {
            numbers: SmallVec::new(alloc),
        }
    }

    pub(crate) fn push(&mut self, number: u32) -> Result<(), AllocError>
        ensures { OnOk result (self.new ≡ self.old ++ number ∷ []) }
    {
        self.numbers.push(number)?;
        Ok(())
    }

    /// The numbers, in the order of the list.
    pub fn as_slice(&self) -> &[u32]
        ensures { result.now ≡ self.now }
    {
        self.numbers.as_slice()
    }
}

/// What a parameter that is read gives.
#[derive(Drop)]
pub enum Value {
    /// A number, in the unit of its kind.
    Num(i32),
    /// A point in units of length, or a direction in thousandths.
    Triple(i32, i32, i32),
    /// The bytes of a string.
    Text(Bytes),
    /// The number of an instance.
    One(u32),
    /// The numbers of instances.
    Many(Refs),
    /// Nothing is given.
    Nothing,
}

/// A point in units of length, or a direction in thousandths.
#[derive(Clone, Copy, Debug, PartialEq, Eq)]
pub struct Triple {
    pub x: i32,
    pub y: i32,
    pub z: i32,
}

/// What an instance shows by its row: a value for each parameter that the row reads, in the order of the row.
#[derive(Drop)]
pub struct Fields {
    pub row: RowId,
    pub values: Values,
}

/// What is given at a place in the reads of the row; places count from 0.
impl Fields {
    /// The number that is given there, in the unit of its kind.
    pub fn num(&self, k: usize) -> Option<i32>
        ensures { result ≡ num_at self.now.values k }
    {
        match self.values.as_slice().get(k) {
            Some(Value::Num(number)) => Some(*number),
            _ => None,
        }
    }

    /// The point or the direction that is given there.
    pub fn triple(&self, k: usize) -> Option<Triple>
        ensures { result ≡ triple_at self.now.values k }
    {
        match self.values.as_slice().get(k) {
            Some(Value::Triple(x, y, z)) => Some(Triple {
                x: *x,
                y: *y,
                z: *z,
            }),
            _ => None,
        }
    }

    /// The bytes of the string that is given there; none where none is given.
    pub fn text(&self, k: usize) -> &[u8]
        ensures { result.now ≡ text_at self.now.values k }
    {
        match self.values.as_slice().get(k) {
            Some(Value::Text(text)) => text.as_slice(),
            _ => &[],
        }
    }

    /// The number of the instance that is named there.
    pub fn one(&self, k: usize) -> Option<u32>
        ensures { result ≡ one_at self.now.values k }
    {
        match self.values.as_slice().get(k) {
            Some(Value::One(number)) => Some(*number),
            _ => None,
        }
    }

    /// The numbers of the instances that are named there in a list; none where no list is given.
    pub fn many(&self, k: usize) -> &[u32]
        ensures { result.now ≡ many_at self.now.values k }
    {
        match self.values.as_slice().get(k) {
            Some(Value::Many(numbers)) => numbers.as_slice(),
            _ => &[],
        }
    }
}
