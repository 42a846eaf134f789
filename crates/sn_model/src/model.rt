//! The model of a file.
ghost use Rattle.std.specs.Prelude.{◌≡◌, ◌≢◌, ◌⊎◌, ◌↔◌, IfOk, IfErr, IsTrue, MatchOption, MatchResult};
ghost use Rattle.std.specs.Option.{option_copied};
ghost use Rattle.sn_model.specs.ModelContent.{ModelContent, entry_of, row_of_number};
ghost use Rattle.sn_entity.specs.Shows.{IsKnown};
ghost use Rattle.sn_model.specs.Built.{IsOfRow, IsProject, HaveOneProject, IsEntryOf, AreKept, IsModel, IsModelOf, IsModelFault};

use crate::fault::ModelFault;
use crate::laws::one_model;
use indexmap::IndexMap;
use sn_entity::{EntFault, Fields, RowId, fields, row_of};
use sn_p21::{File, Instance, Instances, instances_are_spelled};
use std::alloc::{AllocError, Global};

/// What is kept of an instance.
#[derive(Drop)]
pub enum Entry {
    /// What it shows by its row.
    Typed(Fields),
    /// Why it does not show its row. The fault is never want of memory.
    Bad(EntFault),
    /// The instance is complex, or the table has no row of its keyword.
    Stranger,
}

/// What is kept of an instance, and its row by its keyword.
#[derive(Drop)]
pub struct Kept {
    pub row: Option<RowId>,
    pub entry: Entry,
}

/// The instances of a file by their numbers, and the number of its one project.
#[derive(Drop)]
pub struct Model {
    kept: IndexMap<u32, Kept>,
    project: u32,
}

impl std::marker::Model for Model {
    ghost use Rattle.sn_model.specs.ModelContent.{ModelContent};

    ghost Value = { ModelContent };

    ghost view = { λ a. record { kept = a.kept.entries; project = a.project } };

    ghost use Rattle.sn_model.specs.Built.{IsModel};

    ghost invariant = { λ a. IsModel (record { kept = a.kept.entries; project = a.project }) };
}

impl Model {
    /// What is kept of the instance of a number; `None` where no instance has it.
    pub fn get(&self, n: u32) -> Option<&Entry>
        ensures { option_copied result ≡ entry_of n self.now }
    {
        match self.kept.get(&n) {
            Some(kept) => Some(&kept.entry),
            None => None,
        }
    }

    /// The row of the instance of a number, by its keyword; `None` where no instance has the number, or it is a stranger.
    pub fn row(&self, n: u32) -> Option<RowId>
        ensures { result ≡ row_of_number n self.now }
    {
        match self.kept.get(&n) {
            Some(kept) => kept.row,
            None => None,
        }
    }

    /// The number of the project.
    pub fn project(&self) -> u32
        ensures { result ≡ self.now.project }
    {
        self.project
    }

    /// What every model keeps: it is that of some instances.
    pub fn rule(&self)
        ensures { IsModel self.now }
    {
        let _project = self.project;
    }
}

/// The model of a file: each instance by its row, typed or with its fault, or as a stranger.
pub fn build(alloc: Global, f: &File) -> Result<Model, ModelFault>
    ensures found { IfOk result (λ m. IsModelOf f.now.instances m) }
    ensures refused { IfErr result (λ e. e ≢ ModelFault.Memory → IsModelFault f.now.instances e) }
    // A file with one project gives its model, and any other has its fault told, unless memory runs out.
    ensures only { (m : ModelContent) → IsModelOf f.now.instances m → MatchResult result (λ g. g ≡ m) (λ e. e ≡ ModelFault.Memory) }
    ensures fault { (why : ModelFault) → IsModelFault f.now.instances why → MatchResult result (λ m. ⊥) (λ e. (e ≡ why) ⊎ (e ≡ ModelFault.Memory)) }
{
    instances_are_spelled();
    one_model();
    let project = project_of(&f.instances)?;
    let kept = keep_all(alloc, f)?;
    Ok(Model { kept, project })
}

/// The number of the one project.
fn project_of(instances: &Instances) -> Result<u32, ModelFault>
    ensures { MatchResult result (λ n. HaveOneProject instances.now n) (λ e. IsModelFault instances.now e) }
{
    let mut project = None;
    for place in 0..instances.len() {
        let Some(instance) = instances.at(place) else {
            continue;
        };
        if !is_project(instance) {
            continue;
        }
        if project.is_some() {
            return Err(ModelFault::TwoProjects(instance.number));
        }
        project = Some(instance.number);
    }
    project.ok_or(ModelFault::NoProject)
}

fn is_project(instance: &Instance) -> bool
    ensures { IsTrue result ↔ IsProject instance.now }
{
    matches!(instance_row(instance), Some(RowId::Project))
}

/// What is kept of each instance, by its number.
fn keep_all(alloc: Global, f: &File) -> Result<IndexMap<u32, Kept>, AllocError>
    ensures { IfOk result (λ kept. AreKept f.now.instances kept.entries) }
{
    let instances = &f.instances;
    let mut kept = IndexMap::with_capacity(alloc, instances.len())?;
    for place in 0..instances.len() {
        if let Some(instance) = instances.at(place) {
            kept.insert(instance.number, keep(alloc, instance)?)?;
        }
    }
    Ok(kept)
}

/// What is kept of an instance.
fn keep(alloc: Global, instance: &Instance) -> Result<Kept, AllocError>
    ensures { IfOk result (λ k. IsEntryOf instance.now k.row k.entry) }
{
    let Some(id) = instance_row(instance) else {
        return Ok(Kept {
            row: None,
            entry: Entry::Stranger,
        });
    };
    let entry = match fields(alloc, instance) {
        Ok(shown) => Entry::Typed(shown),
        Err(EntFault::Memory) => return Err(AllocError),
        Err(fault) => Entry::Bad(fault),
    };
    Ok(Kept {
        row: Some(id),
        entry,
    })
}

/// The row of an instance by its keyword; `None` where it is a stranger.
fn instance_row(instance: &Instance) -> Option<RowId>
    ensures { MatchOption result (¬ IsKnown instance.now) (λ id. IsOfRow instance.now id) }
{
    let [entity] = instance.parts.as_slice() else {
        return None;
    };
    row_of(entity.keyword.as_slice())
}
