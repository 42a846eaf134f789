//! What an instance of a model names.
ghost use Rattle.std.specs.Prelude.{◌≡◌, ◌↔◌, ◌++◌, IsTrue, IfOk, OnOk, map};
ghost use Rattle.std.specs.Option.{option_copied};
ghost use Rattle.sn_model.specs.ModelContent.{entry_of};
ghost use Rattle.sn_refs.specs.Reference.{fields_from, reference, names_block as has_block, references as all_references, references_of_value, references_of_values, IsOfKind};

use sn_entity::{Fields, Group, Kind, Read, RowId, Value, reads_of};
use sn_model::{Entry, Model};
use std::alloc::{AllocError, Global};

/// A reference of an instance.
#[derive(Clone, Copy, Drop)]
pub struct Reference {
    /// The place of the parameter in which it stands, counted from 1.
    pub place: u32,
    /// The rows that are wanted.
    pub group: Group,
    /// The number that it names.
    pub target: u32,
}

/// What an instance shows, if it shows its row.
pub fn shown(model: &Model, n: u32) -> Option<&Fields>
    ensures { option_copied result ≡ fields_from (entry_of n model.now) }
{
    match model.get(n) {
        Some(Entry::Typed(fields)) => Some(fields),
        Some(Entry::Bad(_)) => None,
        Some(Entry::Stranger) => None,
        None => None,
    }
}

/// Whether a live block has this number.
pub fn names_block(model: &Model, n: u32) -> bool
    ensures { result ≡ has_block n model.now }
{
    matches!(model.row(n), Some(RowId::Block))
}

/// Whether what it names is live and of a wanted row.
pub fn is_of_kind(model: &Model, reference: &Reference) -> bool
    ensures { IsTrue result ↔ IsOfKind model.now reference.now }
{
    match model.row(reference.target) {
        Some(row) => reference.group.has(row),
        None => false,
    }
}

/// Adds a reference to each of the targets.
fn add_list(
    place: u32,
    group: Group,
    targets: &[u32],
    found: &mut Vec<Reference>,
) -> Result<(), AllocError>
    ensures { OnOk result (found.new.items ≡ found.old.items ++ map (reference place group) targets.now) }
{
    for target in targets {
        found.push(Reference {
            place,
            group,
            target: *target,
        })?;
    }
    Ok(())
}

/// Adds the references of a value.
fn add_value(
    model: &Model,
    read: &Read,
    value: &Value,
    found: &mut Vec<Reference>,
) -> Result<(), AllocError>
    ensures { OnOk result (found.new.items ≡ found.old.items ++ references_of_value model.now read.now.place read.now.kind value.now) }
{
    let place = read.place;
    match (read.kind, value) {
        (Kind::R(group), Value::One(target)) => found.push(Reference {
            place,
            group,
            target: *target,
        })?,
        (Kind::RL(group), Value::Many(targets)) => add_list(
            place,
            group,
            targets.as_slice(),
            found,
        )?,
        (Kind::B, Value::One(target)) if names_block(model, *target) => found.push(Reference {
            place,
            group: Group::One(RowId::Block),
            target: *target,
        })?,
        _ => {}
    }
    Ok(())
}

/// Adds the references of values, each by what reads it.
fn add_values(
    model: &Model,
    reads: &[Read],
    values: &[Value],
    found: &mut Vec<Reference>,
) -> Result<(), AllocError>
    ensures { OnOk result (found.new.items ≡ found.old.items ++ references_of_values model.now reads.now values.now) }
{
    for (read, value) in reads.iter().zip(values) {
        add_value(model, read, value, found)?;
    }
    Ok(())
}

/// The references of the instance, by their places, and in a list in its order.
pub fn references(alloc: Global, model: &Model, n: u32) -> Result<Vec<Reference>, AllocError>
    ensures { IfOk result (λ v. v.items ≡ all_references n model.now) }
{
    let mut found = Vec::new(alloc);
    if let Some(fields) = shown(model, n) {
        let reads = reads_of(alloc, fields.row);
        add_values(
            model,
            reads.as_slice(),
            fields.values.as_slice(),
            &mut found,
        )?;
    }
    Ok(found)
}
