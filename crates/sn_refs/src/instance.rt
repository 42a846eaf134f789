//! What is looked at of one instance: its own fault, and which instances it names.
ghost use Rattle.std.specs.Prelude.{◌≡◌, ◌++◌, List, ℕ, MatchOption, OnOk};
ghost use Rattle.sn_model.specs.ModelContent.{entry_of};
ghost use Rattle.sn_refs.specs.Reference.{fault_from, references as all_references, IsOfKind, AreTargets};
ghost use Rattle.sn_refs.specs.Path.{IsFaultless};
ghost use Rattle.sn_refs.specs.Sound.{IsFirstBad, IsOwnFault};

use crate::fault::RefFault;
use crate::reference::{Reference, is_of_kind};
use sn_entity::EntFault;
use sn_model::{Entry, Model};
use std::alloc::AllocError;

/// Why the instance does not show its row.
fn entry_fault(model: &Model, n: u32) -> Option<EntFault>
    ensures { result ≡ fault_from (entry_of n model.now) }
{
    match model.get(n) {
        Some(Entry::Bad(why)) => Some(*why),
        Some(Entry::Typed(_)) => None,
        Some(Entry::Stranger) => None,
        None => None,
    }
}

/// The fault of an instance by one of its references.
fn reference_fault(model: &Model, n: u32, reference: &Reference) -> Option<RefFault>
    ensures { MatchOption result (IsOfKind model.now reference.now) (λ why. (¬ IsOfKind model.now reference.now) × (IsFirstBad model.now n reference.now → IsOwnFault model.now n why)) }
{
    if is_of_kind(model, reference) {
        return None;
    }
    match model.get(reference.target) {
        Some(_) => Some(RefFault::WrongKind(n, reference.place, reference.target)),
        None => Some(RefFault::Dangling(n, reference.place)),
    }
}

/// The fault of an instance that has these references: it does not show its row, or names nothing or a wrong kind.
pub fn own_fault(model: &Model, n: u32, references: &[Reference]) -> Option<RefFault>
    requires { references.now ≡ all_references n model.now }
    ensures { MatchOption result (IsFaultless model.now n) (λ why. IsOwnFault model.now n why) }
{
    if let Some(why) = entry_fault(model, n) {
        return Some(RefFault::Entity(why));
    }
    for reference in references {
        if let Some(fault) = reference_fault(model, n, reference) {
            return Some(fault);
        }
    }
    None
}

/// Adds the numbers of the instances that the references name.
pub fn add_targets(
    model: &Model,
    references: &[Reference],
    found: &mut Vec<u32>,
) -> Result<(), AllocError>
    ensures { OnOk result ((targets : List ℕ) × (found.new.items ≡ found.old.items ++ targets) × AreTargets model.now references.now targets) }
{
    for reference in references {
        if is_of_kind(model, reference) {
            found.push(reference.target)?;
        }
    }
    Ok(())
}
