//! The instances of a file, in the order in which they stand there.

ghost use Rattle.std.specs.Prelude.{◌≡◌, ◌++◌, ◌∷◌, [], length, Some, None, Option, slice_get, is_some, ◌↔◌, IfOk, OnErr, IsSome, ◌<◌, not, true, false};
ghost use Rattle.std.specs.Option.{option_copied};
ghost use Rattle.sn_p21.specs.Numbers.{has_number, instance_of};

use crate::file::Instance;
use indexmap::IndexMap;
use std::alloc::{AllocError, Global};
use std::marker::Model;

/// Instances of differing numbers, in file order, each found by its number.
#[derive(Drop)]
pub struct Instances {
    found: IndexMap<u32, Instance>,
}

impl Model for Instances {
    ghost use Rattle.std.specs.Prelude.{List};
    ghost use Rattle.sn_p21.specs.declared.file.Instance.{Instance};
    ghost use Rattle.std.specs.Coded.{codes};
    ghost use Rattle.sn_p21.specs.contracts.file.Param as param;

    ghost Value = { List Instance };

    ghost coded = { Prim.hlevel (codes, param.the_row.coded) };

    ghost use Rattle.sn_p21.specs.Numbers.{instances_of, AreByNumber};

    ghost view = { λ a. instances_of a.found.entries };

    ghost invariant = { λ a. AreByNumber a.found.entries };
}

impl Instances {
    /// No instances.
    pub fn new(alloc: Global) -> Instances
        ensures { result ≡ [] }
    {
        Instances {
            found: IndexMap::new(alloc),
        }
    }

    /// How many there are.
    pub fn len(&self) -> usize
        ensures { result ≡ length self.now }
    {
        self.found.len()
    }

    /// The instance at a place in file order, counted from 0.
    pub fn at(&self, place: usize) -> Option<&Instance>
        ensures value { option_copied result ≡ slice_get self.now place }
        ensures within { IsSome result ↔ (place < length self.now) }
    {
        match self.found.get_index(place) {
            Some((_, instance)) => Some(instance),
            None => None,
        }
    }

    /// The instance of a number.
    pub fn get(&self, number: u32) -> Option<&Instance>
        ensures { option_copied result ≡ instance_of number self.now }
    {
        self.found.get(&number)
    }

    /// Whether one of them has this number.
    pub fn has(&self, number: u32) -> bool
        ensures { result ≡ has_number number self.now }
    {
        self.found.get(&number).is_some()
    }

    /// Adds an instance behind the others. The answer is whether it was added: where one of them has its number, nothing
    /// is changed.
    pub fn push(&mut self, instance: Instance) -> Result<bool, AllocError>
        ensures fresh { IfOk result (λ added. added ≡ not (has_number instance.number self.old)) }
        ensures added { IfOk result (λ added. added ≡ true → self.new ≡ self.old ++ instance ∷ []) }
        ensures kept { IfOk result (λ added. added ≡ false → self.new ≡ self.old) }
        ensures err { OnErr result (self.new ≡ self.old) }
    {
        if self.has(instance.number) {
            return Ok(false);
        }
        self.found.insert(instance.number, instance)?;
        Ok(true)
    }
}
