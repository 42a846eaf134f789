//! Models whose references are sound.
ghost use Rattle.std.specs.Prelude.{◌≡◌, ◌≢◌, ◌⊎◌, ℕ, Some, IfSome, IfOk, IfErr, IsTrue, MatchResult};
ghost use Rattle.std.specs.List.{Contains};
ghost use Rattle.sn_entity.specs.Given.{num_at, triple_at, one_at, many_at};
ghost use Rattle.sn_entity.specs.Limits.{KeepLimits};
ghost use Rattle.sn_entity.specs.Shape.{HaveShape};
ghost use Rattle.sn_entity.specs.Table.{reads_of};
ghost use Rattle.sn_model.specs.declared.model.Entry.TheVariants.{Typed};
ghost use Rattle.sn_model.specs.ModelContent.{entry_of, row_of_number};
ghost use Rattle.sn_refs.specs.Reference.{names_block as has_block, IsReached};
ghost use Rattle.sn_refs.specs.Sound.{IsChecked, IsSound, IsRefFault};
ghost use Rattle.sn_refs.specs.Target.{values_of, read_at, is_reference, is_list, is_number, is_three, may_be, must_be, group_at, IsTarget};
ghost use Rattle.sn_refs.specs.Within.{IsWithinRead, AreWithinRead};

use crate::fault::RefFault;
use crate::laws::named_are_targets;
use crate::reference::{names_block, shown};
use crate::walk::first_fault;
use sn_entity::{EntFault, Fields, Triple, given_where_wanted, in_group_or_not};
use sn_model::{Model, kept_by_row, kept_within_limits, project_has_row};
use std::alloc::Global;

/// A model in which each instance that the project leads to shows its row and names live instances of the wanted kinds, and
/// none leads back to itself. It is seen as the content of the model.
#[derive(Drop)]
pub struct Checked {
    model: Model,
}

impl std::marker::Model for Checked {
    ghost use Rattle.sn_model.specs.ModelContent.{ModelContent};

    ghost Value = { ModelContent };

    ghost view = { λ a. a.model };

    ghost use Rattle.sn_refs.specs.Sound.{IsChecked};

    ghost invariant = { λ a. IsChecked a.model };
}

impl Checked {
    /// What an instance shows, by the row of its keyword and in the shape of that row.
    pub fn fields(&self, n: u32) -> &Fields
        requires { IsReached self.now n }
        ensures entry { entry_of n self.now ≡ Some (Typed result.now) }
        ensures row { row_of_number n self.now ≡ Some result.now.row }
        ensures shape { HaveShape (reads_of result.now.row) result.now.values }
        ensures limits { KeepLimits (reads_of result.now.row) result.now.values }
    {
        kept_by_row();
        kept_within_limits();
        match shown(&self.model, n) {
            Some(fields) => fields,
            None => unreachable!(),
        }
    }

    /// The instance that is named at a place in the reads of a row, where the row wants one. Places count from 0.
    pub fn one(&self, n: u32, k: usize) -> u32
        requires reached { IsReached self.now n }
        requires wanted { IsTrue (must_be is_reference (read_at (row_of_number n self.now) k)) }
        ensures named { one_at (values_of n self.now) k ≡ Some result }
        ensures target { IsTarget self.now (group_at (read_at (row_of_number n self.now) k)) result }
    {
        self.rule();
        given_where_wanted();
        named_are_targets();
        match self.fields(n).one(k) {
            Some(named) => named,
            None => unreachable!(),
        }
    }

    /// The instance that is named at a place, where the row wants one or none.
    pub fn maybe_one(&self, n: u32, k: usize) -> Option<u32>
        requires reached { IsReached self.now n }
        requires wanted { IsTrue (may_be is_reference (read_at (row_of_number n self.now) k)) }
        ensures named { result ≡ one_at (values_of n self.now) k }
        ensures target { IfSome result (λ t. IsTarget self.now (group_at (read_at (row_of_number n self.now) k)) t) }
    {
        self.rule();
        named_are_targets();
        self.fields(n).one(k)
    }

    /// The instances that are named at a place, where the row wants a list of them.
    pub fn many(&self, n: u32, k: usize) -> &[u32]
        requires reached { IsReached self.now n }
        requires wanted { IsTrue (may_be is_list (read_at (row_of_number n self.now) k)) }
        ensures named { result.now ≡ many_at (values_of n self.now) k }
        ensures targets { (t : ℕ) → Contains result.now t → IsTarget self.now (group_at (read_at (row_of_number n self.now) k)) t }
    {
        self.rule();
        named_are_targets();
        self.fields(n).many(k)
    }

    /// The number at a place, in the unit of its kind, where the row wants one.
    pub fn num(&self, n: u32, k: usize) -> i32
        requires reached { IsReached self.now n }
        requires wanted { IsTrue (must_be is_number (read_at (row_of_number n self.now) k)) }
        ensures number { num_at (values_of n self.now) k ≡ Some result }
        ensures limits { IsWithinRead (read_at (row_of_number n self.now) k) result }
    {
        given_where_wanted();
        match self.fields(n).num(k) {
            Some(number) => number,
            None => unreachable!(),
        }
    }

    /// The number that is given at a place, in the unit of its kind. One is given only where the row reads a number.
    pub fn maybe_num(&self, n: u32, k: usize) -> Option<i32>
        requires reached { IsReached self.now n }
        ensures number { result ≡ num_at (values_of n self.now) k }
        ensures kind { IfSome result (λ z. IsTrue (may_be is_number (read_at (row_of_number n self.now) k))) }
        ensures limits { IfSome result (IsWithinRead (read_at (row_of_number n self.now) k)) }
    {
        self.fields(n).num(k)
    }

    /// The point or the direction at a place, where the row wants one.
    pub fn triple(&self, n: u32, k: usize) -> Triple
        requires reached { IsReached self.now n }
        requires wanted { IsTrue (must_be is_three (read_at (row_of_number n self.now) k)) }
        ensures three { triple_at (values_of n self.now) k ≡ Some result }
        ensures limits { AreWithinRead (read_at (row_of_number n self.now) k) result }
    {
        given_where_wanted();
        match self.fields(n).triple(k) {
            Some(three) => three,
            None => unreachable!(),
        }
    }

    /// The number of the project.
    pub fn project(&self) -> u32
        ensures { result ≡ self.now.project }
    {
        self.model.project()
    }

    /// Whether a live block has this number.
    pub fn names_block(&self, n: u32) -> bool
        ensures { result ≡ has_block n self.now }
    {
        names_block(&self.model, n)
    }

    /// What every checked model keeps: it is that of some instances, it is sound, and the instances that the project leads
    /// to stand in an order in which each names earlier ones alone.
    pub fn rule(&self)
        ensures checked { IsChecked self.now }
        ensures sound { IsSound self.now }
    {
        kept_by_row();
        project_has_row();
        in_group_or_not();
        let _project = self.model.project();
    }
}

/// The model, where it is sound. A model that is refused is given up.
pub fn check(alloc: Global, m: Model) -> Result<Checked, RefFault>
    ensures found { IfOk result (λ c. (c ≡ m) × IsSound m) }
    ensures refused { IfErr result (λ e. e ≢ RefFault.Memory → IsRefFault m e) }
    ensures entity { IfErr result (λ e. e ≢ RefFault.Entity EntFault.Memory) }
    // A sound model is passed on, and any other has its fault told, unless memory runs out.
    ensures only { IsSound m → MatchResult result (λ c. c ≡ m) (λ e. e ≡ RefFault.Memory) }
    ensures fault { (why : RefFault) → IsRefFault m why → MatchResult result (λ c. ⊥) (λ e. (e ≡ why) ⊎ (e ≡ RefFault.Memory)) }
{
    kept_by_row();
    m.rule();
    match first_fault(alloc, &m)? {
        Some(fault) => Err(fault),
        None => Ok(Checked { model: m }),
    }
}
