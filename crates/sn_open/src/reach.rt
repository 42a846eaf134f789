//! Whether the grid sees each feature, and whether the steps reach each cell that has to be cut.
ghost use Rattle.std.specs.Prelude.{◌≡◌, ◌↔◌, ◌⊎◌, ℕ, pos, ◌+ℤ◌, IsTrue, IsNone, IfOk, IfSome, MatchOption, Contains};
ghost use Rattle.std.specs.List.{Any};
ghost use Rattle.sn_outline.specs.JobRule.{IsProper};
ghost use Rattle.sn_raster.specs.Grid.{Node, IsGridOf};
ghost use Rattle.sn_raster.specs.Plane.{Has, IsEmpty};
ghost use Rattle.sn_raster.specs.Heights.{IsFirst};
ghost use Rattle.sn_open.specs.Reach.{IsExecuted, HasRequired, full_width_from, IsFirstSmall, IsReachedFeature, IsReachable, IsUnreached, IsFirstUnreached};
ghost use Rattle.sn_open.specs.Search.{IsFullAt, OpensAt, IsOpenedAt, lowest_of_heights, above_heights};

use crate::least::{Allowance, step_of_least};
use crate::opening::Opening;
use crate::planes::first_alone;
use crate::required::Required;
use crate::window::place_after;
use sn_geom::{Cell, Memory};
use sn_outline::{Job, StepJob, tip_floor};
use sn_raster::{Bits, Grid};
use std::alloc::Global;

/// The first executed feature without a node that has to be cut, by its instance number. The grid is too coarse for it.
pub fn first_small(alloc: Global, j: &Job, g: &Grid) -> Result<Option<u32>, Memory>
    requires { IsGridOf g.now j.now }
    ensures { IfOk result (λ found. MatchOption found
        ((feature : ℕ) → IsExecuted j.now feature → HasRequired j.now feature)
        (IsFirstSmall j.now)) }
{
    let mut required = Required::empty(alloc, g)?;
    let none = Bits::new(alloc, g)?;
    Ok(small_in(j, g, &mut required, &none))
}

fn small_in(j: &Job, g: &Grid, required: &mut Required, none: &Bits) -> Option<u32>
    requires own { required.old.grid ≡ g.now }
    requires empty { (none.now.grid ≡ g.now) × IsEmpty none.now }
    requires grid { IsGridOf g.now j.now }
    ensures { MatchOption result
        ((feature : ℕ) → IsExecuted j.now feature → HasRequired j.now feature)
        (IsFirstSmall j.now) }
{
    let steps = j.steps();
    for (k, step) in steps.iter().enumerate() {
        if cuts(&steps[..k], step.feature) {
            continue;
        }
        if is_small(j, g, required, none, step.feature) {
            return Some(step.feature);
        }
    }
    None
}

/// Whether the feature has no node that has to be cut.
fn is_small(j: &Job, g: &Grid, required: &mut Required, none: &Bits, feature: u32) -> bool
    requires own { required.old.grid ≡ g.now }
    requires empty { (none.now.grid ≡ g.now) × IsEmpty none.now }
    requires grid { IsGridOf g.now j.now }
    requires executed { IsExecuted j.now feature }
    ensures own { required.new.grid ≡ g.now }
    ensures yes { IsTrue result → ¬ HasRequired j.now feature }
    ensures no { ¬ IsTrue result → HasRequired j.now feature }
{
    required.refill(j, feature, g);
    required.nodes().is_within(none)
}

/// Whether one of the steps cuts the feature.
fn cuts(steps: &[StepJob], feature: u32) -> bool
    ensures { IsTrue result ↔ Any (λ s. s.feature ≡ feature) steps.now }
{
    for step in steps {
        if step.feature == feature {
            return true;
        }
    }
    false
}

/// The first cell that has to be cut and that no step of its feature opens, with the instance number of the feature.
///
/// Features go by their first executed steps, and the cells of one feature by rows, in a row by columns, and over a node
/// by heights.
pub fn first_unreached(alloc: Global, j: &Job, g: &Grid) -> Result<Option<(u32, Cell)>, Memory>
    requires { IsGridOf g.now j.now }
    ensures { IfOk result (λ found. MatchOption found (IsReachable j.now) (λ found. IsFirstUnreached j.now found.0 found.1)) }
{
    let mut required = Required::empty(alloc, g)?;
    let mut opening = Opening::empty(alloc, g)?;
    let mut reached = Bits::new(alloc, g)?;
    Ok(unreached_in(j, g, &mut required, &mut opening, &mut reached))
}

fn unreached_in(
    j: &Job,
    g: &Grid,
    required: &mut Required,
    opening: &mut Opening,
    reached: &mut Bits,
) -> Option<(u32, Cell)>
    requires own { required.old.grid ≡ g.now }
    requires opening { opening.old.grid ≡ g.now }
    requires reached { reached.old.grid ≡ g.now }
    requires grid { IsGridOf g.now j.now }
    ensures { MatchOption result (IsReachable j.now) (λ found. IsFirstUnreached j.now found.0 found.1) }
{
    let steps = j.steps();
    for (k, step) in steps.iter().enumerate() {
        if cuts(&steps[..k], step.feature) {
            continue;
        }
        if let Some(cell) = unreached_of(j, g, required, opening, reached, step.feature) {
            return Some((step.feature, cell));
        }
    }
    None
}

/// The first cell of the feature that has to be cut and that no step of it opens.
fn unreached_of(
    j: &Job,
    g: &Grid,
    required: &mut Required,
    opening: &mut Opening,
    reached: &mut Bits,
    feature: u32,
) -> Option<Cell>
    requires own { required.old.grid ≡ g.now }
    requires opening { opening.old.grid ≡ g.now }
    requires reached { reached.old.grid ≡ g.now }
    requires grid { IsGridOf g.now j.now }
    requires executed { IsExecuted j.now feature }
    ensures own { required.new.grid ≡ g.now }
    ensures opening { opening.new.grid ≡ g.now }
    ensures reached { reached.new.grid ≡ g.now }
    ensures some { IfSome result (IsFirst (IsUnreached j.now feature)) }
    ensures none { IsNone result → IsReachedFeature j.now feature }
{
    j.rule();
    g.rule();
    let deepest = step_of_least(j.steps(), feature, Allowance::Under)?;
    let z = lowest_height(deepest, g);
    if above_height(deepest, g) <= z {
        return None;
    }
    open_at(j, g, opening, reached, feature, z);
    required.refill(j, feature, g);
    let spot = first_alone(required.nodes(), reached)?;
    Some(Cell {
        i: place_after(g.i0, spot.column),
        j: place_after(g.j0, spot.row),
        z,
    })
}

/// The lowest height at which the feature of the step has to be cut in the raw box, whose heights are those of the grid.
fn lowest_height(step: &StepJob, g: &Grid) -> i32
    requires { IsProper step.now }
    ensures { result ≡ lowest_of_heights step.now g.now }
{
    deepest_of(step).max(g.bottom)
}

/// The lowest height at which the feature of the step has to be cut.
fn deepest_of(step: &StepJob) -> i32
    requires { IsProper step.now }
    ensures { result ≡ step.now.floor +ℤ pos step.now.under }
{
    step.floor + step.under as i32
}

/// The height from which on the feature of the step has not to be cut, or the raw box has ended.
fn above_height(step: &StepJob, g: &Grid) -> i32
    ensures { result ≡ above_heights step.now g.now }
{
    step.top.min(g.top)
}

/// Makes them the nodes that the steps of a feature open at a height.
fn open_at(j: &Job, g: &Grid, opening: &mut Opening, reached: &mut Bits, feature: u32, z: i32)
    requires opening { opening.old.grid ≡ g.now }
    requires reached { reached.old.grid ≡ g.now }
    requires grid { IsGridOf g.now j.now }
    ensures opening { opening.new.grid ≡ g.now }
    ensures reached { reached.new.grid ≡ g.now }
    ensures nodes { (n : Node) → Has reached.new n ↔ IsOpenedAt j.now feature z n }
{
    reached.clear();
    for step in j.steps() {
        add_opening(j, step, g, opening, reached, feature, z);
    }
}

/// Puts in the nodes that the step opens at a height, if it is one of the feature.
fn add_opening(
    j: &Job,
    step: &StepJob,
    g: &Grid,
    opening: &mut Opening,
    reached: &mut Bits,
    feature: u32,
    z: i32,
)
    requires opening { opening.old.grid ≡ g.now }
    requires reached { reached.old.grid ≡ g.now }
    requires grid { IsGridOf g.now j.now }
    requires executed { Contains j.now.steps step.now }
    ensures opening { opening.new.grid ≡ g.now }
    ensures reached { reached.new.grid ≡ g.now }
    ensures nodes { (n : Node) → Has reached.new n ↔ (Has reached.old n ⊎ OpensAt j.now feature z step.now n) }
{
    j.rule();
    if opens_at(step, feature, z) {
        opening.refill(step, g);
        reached.unite(opening.nodes());
    }
}

/// Whether the step is one of the feature, and cuts with its whole diameter at the height.
fn opens_at(step: &StepJob, feature: u32, z: i32) -> bool
    requires { IsProper step.now }
    ensures { IsTrue result ↔ IsFullAt feature z step.now }
{
    step.feature == feature && full_width_of(step) <= z
}

/// The height from which the step cuts with its whole diameter.
fn full_width_of(step: &StepJob) -> i32
    requires { IsProper step.now }
    ensures { result ≡ full_width_from step.now }
{
    tip_floor(step) as i32 + step.body.e as i32
}
