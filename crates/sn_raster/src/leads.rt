//! Where the places of a row lie beside rising edges.
ghost use Rattle.std.specs.Prelude.{◌≡◌, ◌↔◌, ◌*◌, ◌≤◌, ℤ, pos, ◌-ℤ◌, ◌*ℤ◌, ◌≤ℤ◌, ◌<ℤ◌, unsigned_abs};
ghost use Rattle.sn_geom.specs.Length.{IsLength};
ghost use Rattle.sn_outline.specs.JobRule.{IsPitch};
ghost use Rattle.sn_outline.specs.Polygon.{beside};
ghost use Rattle.sn_raster.specs.Grid.{Node, IsInWindow, place};
ghost use Rattle.sn_raster.specs.RowTurns.{at};

use crate::grid::Grid;
use crate::outlines::place_of;
use crate::places::Places;
use sn_geom::{Offset, Pt, REACH, Um};

/// The height of row `j`.
pub(crate) fn height_of_row(g: &Grid, j: i32) -> Um
    requires columns { g.now.i0 ≤ℤ g.now.i1 }
    requires first { g.now.j0 ≤ℤ j }
    requires last { j ≤ℤ g.now.j1 }
    ensures { result ≡ j *ℤ pos g.now.pitch }
{
    place_of(g, g.i0, j).y
}

/// The last column whose place in row `j` lies to the left of the rising edge from `low` to `high`.
pub(crate) fn last_left_of(low: &Pt, high: &Pt, g: &Grid, j: i32) -> i64
    requires rises { low.now.y <ℤ high.now.y }
    requires columns { g.now.i0 ≤ℤ g.now.i1 }
    requires first { g.now.j0 ≤ℤ j }
    requires last { j ≤ℤ g.now.j1 }
    ensures { (i : ℤ) → i ≤ℤ result ↔ (pos 0 <ℤ beside (place g.now.pitch (at i j)) (record { a = low.now; b = high.now })) }
{
    g.rule();
    let lead = lead_of(low, high, height_of_row(g, j));
    (lead - 1).div_euclid(step_of(low, high, g.pitch))
}

/// How far the place at the height `y` on the second axis lies to the left of the edge.
fn lead_of(low: &Pt, high: &Pt, y: Um) -> i64
    ensures value { result ≡ beside (record { x = pos 0; y = y }) (record { a = low.now; b = high.now }) }
    ensures size { unsigned_abs result ≤ 8 * (REACH * REACH) }
{
    let place = Pt { x: Um::of(0), y };
    Offset::between(low, high).cross(&Offset::between(low, &place))
}

/// How much less far the next column lies to the left of the rising edge.
fn step_of(low: &Pt, high: &Pt, pitch: u32) -> i64
    requires rises { low.now.y <ℤ high.now.y }
    requires pitch { IsPitch pitch }
    ensures value { result ≡ (high.now.y -ℤ low.now.y) *ℤ pos pitch }
    ensures positive { pos 0 <ℤ result }
    ensures size { unsigned_abs result ≤ 2 * REACH * REACH }
{
    i64::from(high.y.get().abs_diff(low.y.get())) * i64::from(pitch)
}

/// The columns of the window with all of its nodes of row `j` that are on the line of the rising edge from `low` to
/// `high`: at most one.
pub(crate) fn column_on(low: &Pt, high: &Pt, g: &Grid, j: i32) -> Places
    requires rises { low.now.y <ℤ high.now.y }
    requires columns { g.now.i0 ≤ℤ g.now.i1 }
    requires first { g.now.j0 ≤ℤ j }
    requires last { j ≤ℤ g.now.j1 }
    ensures first { g.now.i0 ≤ℤ result.first }
    ensures last { result.last ≤ℤ g.now.i1 }
    ensures all { (n : Node) → IsInWindow g.now n → n.j ≡ j → beside (place g.now.pitch n) (record { a = low.now; b = high.now }) ≡ pos 0
        → (result.first ≤ℤ n.i) × (n.i ≤ℤ result.last) }
{
    g.rule();
    let lead = lead_of(low, high, height_of_row(g, j));
    only_column(lead.div_euclid(step_of(low, high, g.pitch)), g)
}

/// The column where it is in the window, and some other column of the window where it is not.
fn only_column(column: i64, g: &Grid) -> Places
    requires { g.now.i0 ≤ℤ g.now.i1 }
    ensures first { g.now.i0 ≤ℤ result.first }
    ensures last { result.last ≤ℤ g.now.i1 }
    ensures all { g.now.i0 ≤ℤ column → column ≤ℤ g.now.i1 → (result.first ≤ℤ column) × (column ≤ℤ result.last) }
{
    let only = clamped(column, g);
    Places {
        first: only,
        last: only,
    }
}

/// The column of the window that is nearest to the column.
fn clamped(column: i64, g: &Grid) -> i32
    requires { g.now.i0 ≤ℤ g.now.i1 }
    ensures from { g.now.i0 ≤ℤ result }
    ensures to { result ≤ℤ g.now.i1 }
    ensures same { g.now.i0 ≤ℤ column → column ≤ℤ g.now.i1 → result ≡ column }
    ensures size { IsLength result }
{
    column.min(i64::from(g.i1)).max(i64::from(g.i0)) as i32
}
