//! The first cell that has to be cut and is left.
ghost use Rattle.std.specs.Prelude.{◌≡◌, ◌↔◌, ◌*◌, ◌≤◌, ◌<◌, ◌<ℤ◌, ℕ, pos, ◌+ℤ◌, List, IfSome, IsNone, IsTrue, Contains};
ghost use Rattle.std.specs.Int.{int_max};
ghost use Rattle.std.specs.List.{Any};
ghost use Rattle.sn_geom.specs.Acts.{Act};
ghost use Rattle.sn_geom.specs.Length.{IsLength};
ghost use Rattle.sn_outline.specs.JobRule.{IsProper};
ghost use Rattle.sn_raster.specs.Grid.{IsGridOf, IsInWindow};
ghost use Rattle.sn_raster.specs.Heights.{IsFirst, StandsFor, height_of, node_of};
ghost use Rattle.sn_open.specs.Good.{IsLeft, passes};
ghost use Rattle.sn_open.specs.Region.{IsRequiredCell};
ghost use Rattle.sn_open.specs.Verdict.{IsFirstLeft};
ghost use Rattle.sn_open.specs.Window.{columns, rows, node_at};
ghost use Rattle.sn_sweep.specs.Left.{IsStanding, IsStandingIn, IsLeastUnder, IsBandOf};

use sn_geom::{Cell, REACH};
use sn_open::{Required, columns_of, has_at, rows_of};
use sn_outline::{Job, StepJob};
use sn_raster::{Bits, Grid, Heights};

/// Heights in tenths of a micrometre, from the first to below the second.
#[derive(Clone, Copy)]
pub(crate) struct Band {
    pub from: i32,
    pub below: i32,
}

/// The first cell that has to be cut and is left, with the instance number of its feature.
///
/// Features go by their first executed steps, and the cells of one feature by rows, in a row by columns, and over a node
/// by heights.
pub(crate) fn first_left(
    j: &Job,
    g: &Grid,
    heights: &Heights,
    required: &mut Required,
) -> Option<(u32, Cell)>
    requires grid { IsGridOf g.now j.now }
    requires material { heights.now.grid ≡ g.now }
    requires plane { required.old.grid ≡ g.now }
    ensures plane { required.new.grid ≡ g.now }
    ensures some { IfSome result (λ found. (acts : List Act) → StandsFor heights.now j.now (passes j.now.steps acts)
        → IsFirstLeft j.now acts found.0 found.1) }
    ensures none { IsNone result → (acts : List Act) → StandsFor heights.now j.now (passes j.now.steps acts)
        → (feature : ℕ) (c : Cell) → IsRequiredCell j.now feature c → ¬ IsLeft j.now acts c }
{
    let steps = j.steps();
    for (k, step) in steps.iter().enumerate() {
        if cuts(&steps[..k], step.feature) {
            continue;
        }
        if let Some(cell) = left_of(j, g, heights, required, step) {
            return Some((step.feature, cell));
        }
    }
    None
}

/// Whether one of the steps cuts the feature.
fn cuts(steps: &[StepJob], feature: u32) -> bool
    ensures { IsTrue result ↔ Any (λ s. s.feature ≡ feature) steps.now }
{
    steps.iter().any(|step| step.feature == feature)
}

/// The first cell of the feature of the step that has to be cut and is left.
fn left_of(
    j: &Job,
    g: &Grid,
    heights: &Heights,
    required: &mut Required,
    step: &StepJob,
) -> Option<Cell>
    requires grid { IsGridOf g.now j.now }
    requires material { heights.now.grid ≡ g.now }
    requires plane { required.old.grid ≡ g.now }
    requires executed { Contains j.now.steps step.now }
    ensures plane { required.new.grid ≡ g.now }
    ensures some { IfSome result (IsFirst (IsStanding j.now heights.now step.now.feature)) }
    ensures none { IsNone result → (c : Cell) → ¬ IsStanding j.now heights.now step.now.feature c }
{
    j.rule();
    required.refill(j, step.feature, g);
    left_in_rows(heights, required.nodes(), g, &band_of(j.steps(), step))
}

/// The heights at which the feature of the step has to be cut.
fn band_of(steps: &[StepJob], step: &StepJob) -> Band
    requires proper { IsProper step.now }
    requires among { Contains steps.now step.now }
    ensures { IsBandOf steps.now step.now result }
{
    Band {
        from: raised(step, least_under(steps, step)),
        below: step.top,
    }
}

/// The height `under` above the floor of the step.
fn raised(step: &StepJob, under: u32) -> i32
    requires proper { IsProper step.now }
    requires size { under ≤ REACH }
    ensures { result ≡ step.now.floor +ℤ pos under }
{
    step.floor + under as i32
}

/// The least bottom allowance of the steps of the same feature.
fn least_under(steps: &[StepJob], step: &StepJob) -> u32
    requires { Contains steps.now step.now }
    ensures value { IsLeastUnder steps.now step.now.feature result }
    ensures size { result ≤ step.now.under }
{
    let mut least = step.under;
    for other in steps {
        if other.feature == step.feature {
            least = least.min(other.under);
        }
    }
    least
}

/// The first cell of the heights of the band that is left over a node of the plane.
fn left_in_rows(map: &Heights, nodes: &Bits, g: &Grid, band: &Band) -> Option<Cell>
    requires grid { map.now.grid ≡ g.now }
    requires nodes { nodes.now.grid ≡ g.now }
    ensures some { IfSome result (IsFirst (IsStandingIn nodes.now map.now band.now)) }
    ensures none { IsNone result → (c : Cell) → ¬ IsStandingIn nodes.now map.now band.now c }
{
    for row in 0..rows_of(g) {
        let found = left_in_row(map, nodes, g, band, row);
        if found.is_some() {
            return found;
        }
    }
    None
}

/// The first such cell over the row.
fn left_in_row(map: &Heights, nodes: &Bits, g: &Grid, band: &Band, row: u32) -> Option<Cell>
    requires grid { map.now.grid ≡ g.now }
    requires nodes { nodes.now.grid ≡ g.now }
    requires row { row < rows g.now }
    ensures some { IfSome result (IsFirst (λ c. (c.j ≡ g.now.j0 +ℤ pos row) × IsStandingIn nodes.now map.now band.now c)) }
    ensures none { IsNone result → (c : Cell) → c.j ≡ g.now.j0 +ℤ pos row → ¬ IsStandingIn nodes.now map.now band.now c }
{
    for column in 0..columns_of(g) {
        let found = left_over(map, nodes, g, band, column, row);
        if found.is_some() {
            return found;
        }
    }
    None
}

/// The first such cell over the node in this column and row.
fn left_over(
    map: &Heights,
    nodes: &Bits,
    g: &Grid,
    band: &Band,
    column: u32,
    row: u32,
) -> Option<Cell>
    requires grid { map.now.grid ≡ g.now }
    requires nodes { nodes.now.grid ≡ g.now }
    requires column { column < columns g.now }
    requires row { row < rows g.now }
    ensures some { IfSome result
        (IsFirst (λ c. (node_of c ≡ node_at g.now column row) × IsStandingIn nodes.now map.now band.now c)) }
    ensures none { IsNone result → (c : Cell) → node_of c ≡ node_at g.now column row
        → ¬ IsStandingIn nodes.now map.now band.now c }
{
    if !has_at(nodes, g, column, row) {
        return None;
    }
    let cell = lowest_cell(g, band, column, row);
    if !is_below(&cell, band) {
        return None;
    }
    if !is_left(map, &cell) {
        return None;
    }
    Some(cell)
}

/// The lowest cell over the node in this column and row that is not below the raw bottom or the band.
fn lowest_cell(g: &Grid, band: &Band, column: u32, row: u32) -> Cell
    requires column { column < columns g.now }
    requires row { row < rows g.now }
    ensures { result ≡ record {
      i = g.now.i0 +ℤ pos column;
      j = g.now.j0 +ℤ pos row;
      z = int_max g.now.bottom band.now.from;
    } }
{
    g.rule();
    Cell {
        i: place_after(g.i0, column),
        j: place_after(g.j0, row),
        z: lowest(g, band),
    }
}

/// The place that comes `k` after the first.
fn place_after(first: i32, k: u32) -> i32
    requires first { IsLength first }
    requires count { k ≤ 2 * REACH }
    ensures { result ≡ first +ℤ pos k }
{
    first + k as i32
}

/// The lowest height that is not below the raw bottom or the band.
fn lowest(g: &Grid, band: &Band) -> i32
    ensures { result ≡ int_max g.now.bottom band.now.from }
{
    g.bottom.max(band.from)
}

fn is_below(c: &Cell, band: &Band) -> bool
    ensures { IsTrue result ↔ (c.now.z <ℤ band.now.below) }
{
    c.z < band.below
}

/// Whether the node of the cell has material up to the height of the cell and above.
fn is_left(map: &Heights, c: &Cell) -> bool
    requires { IsInWindow map.now.grid (node_of c.now) }
    ensures { IsTrue result ↔ (c.now.z <ℤ height_of map.now (node_of c.now)) }
{
    c.z < map.at(c.i, c.j)
}
