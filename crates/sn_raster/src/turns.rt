//! The even-odd rule along a row: first the nodes at which the number of edges that cross the ray to the right turns
//! from even to odd or back, and then the nodes where it is odd.
ghost use Rattle.std.specs.Prelude.{◌≡◌, ◌↔◌, ℤ, pos, ◌+ℤ◌, ◌≤ℤ◌, ◌<ℤ◌, Bool, false, not, IsTrue};
ghost use Rattle.sn_outline.specs.Polygon.{path};
ghost use Rattle.sn_raster.specs.Grid.{Node, IsInWindow};
ghost use Rattle.sn_raster.specs.Plane.{Has};
ghost use Rattle.sn_raster.specs.RowTurns.{at, bit, differs, is_odd, is_left, is_crossed};

use crate::bits::Bits;
use crate::grid::Grid;
use crate::leads::{height_of_row, last_left_of};
use crate::places::Places;
use sn_geom::{Pt, Seg, Um};

/// Turns the nodes of row `j` over at which the number of edges turns that cross the ray.
pub(crate) fn turn_path(from: &Pt, points: &[Pt], g: &Grid, j: i32, row: &mut Bits)
    requires columns { g.now.i0 ≤ℤ g.now.i1 }
    requires first { g.now.j0 ≤ℤ j }
    requires last { j ≤ℤ g.now.j1 }
    requires grid { row.old.grid ≡ g.now }
    ensures grid { row.new.grid ≡ g.now }
    ensures row { (i : ℤ) → g.now.i0 ≤ℤ i → i ≤ℤ g.now.i1 → bit row.new (at i j) ≡ differs (bit row.old (at i j))
        (differs (is_odd (λ e. is_crossed g.now j e i) (path from.now points.now))
        (is_odd (λ e. is_crossed g.now j e (i +ℤ pos 1)) (path from.now points.now))) }
    ensures others { (n : Node) → ¬ (n.j ≡ j) → Has row.new n ↔ Has row.old n }
{
    let mut start = *from;
    for to in points {
        let edge = Seg { a: start, b: *to };
        turn_edge(&edge, g, j, row);
        start = *to;
    }
}

/// Turns the last node of row `j` over whose ray the edge crosses, if there is one.
fn turn_edge(e: &Seg, g: &Grid, j: i32, row: &mut Bits)
    requires columns { g.now.i0 ≤ℤ g.now.i1 }
    requires first { g.now.j0 ≤ℤ j }
    requires last { j ≤ℤ g.now.j1 }
    requires grid { row.old.grid ≡ g.now }
    ensures grid { row.new.grid ≡ g.now }
    ensures row { (i : ℤ) → g.now.i0 ≤ℤ i → i ≤ℤ g.now.i1 → bit row.new (at i j) ≡ differs (bit row.old (at i j))
        (differs (is_crossed g.now j e.now i) (is_crossed g.now j e.now (i +ℤ pos 1))) }
    ensures others { (n : Node) → ¬ (n.j ≡ j) → Has row.new n ↔ Has row.old n }
{
    let y = height_of_row(g, j);
    if is_up(&e.a, &e.b, y) {
        turn_left_of(&e.a, &e.b, g, j, row);
        return;
    }
    if is_up(&e.b, &e.a, y) {
        turn_left_of(&e.b, &e.a, g, j, row);
    }
}

/// Whether `y` is from the height of `low` on and below that of `high`.
fn is_up(low: &Pt, high: &Pt, y: Um) -> bool
    ensures { IsTrue result ↔ ((low.now.y ≤ℤ y) × (y <ℤ high.now.y)) }
{
    low.y.get() <= y.get() && y.get() < high.y.get()
}

/// Turns the last node of row `j` over that lies to the left of the rising edge from `low` to `high`, if there is one.
fn turn_left_of(low: &Pt, high: &Pt, g: &Grid, j: i32, row: &mut Bits)
    requires rises { low.now.y <ℤ high.now.y }
    requires columns { g.now.i0 ≤ℤ g.now.i1 }
    requires first { g.now.j0 ≤ℤ j }
    requires last { j ≤ℤ g.now.j1 }
    requires grid { row.old.grid ≡ g.now }
    ensures grid { row.new.grid ≡ g.now }
    ensures row { (i : ℤ) → g.now.i0 ≤ℤ i → i ≤ℤ g.now.i1 → bit row.new (at i j) ≡ differs (bit row.old (at i j))
        (differs (is_left g.now j (record { a = low.now; b = high.now }) i) (is_left g.now j (record { a = low.now; b = high.now }) (i +ℤ pos 1))) }
    ensures others { (n : Node) → ¬ (n.j ≡ j) → Has row.new n ↔ Has row.old n }
{
    let last = last_left_of(low, high, g, j);
    if i64::from(g.i0) <= last {
        turn_node(g, not_past(last, g), j, row);
    }
}

/// The column, or the last of the window where it is past that.
fn not_past(column: i64, g: &Grid) -> i32
    requires columns { g.now.i0 ≤ℤ g.now.i1 }
    requires from { g.now.i0 ≤ℤ column }
    ensures at_most { result ≤ℤ column }
    ensures in_window { (g.now.i0 ≤ℤ result) × (result ≤ℤ g.now.i1) }
    ensures greatest { (i : ℤ) → i ≤ℤ column → i ≤ℤ g.now.i1 → i ≤ℤ result }
{
    column.min(i64::from(g.i1)) as i32
}

/// Turns the node in column `i` and row `j` over.
fn turn_node(g: &Grid, i: i32, j: i32, row: &mut Bits)
    requires window { IsInWindow g.now (at i j) }
    requires grid { row.old.grid ≡ g.now }
    ensures grid { row.new.grid ≡ g.now }
    ensures node { bit row.new (at i j) ≡ not (bit row.old (at i j)) }
    ensures others { (n : Node) → ¬ (n ≡ at i j) → Has row.new n ↔ Has row.old n }
{
    let on = row.get(i, j);
    row.set(i, j, !on);
}

/// Makes that the row has the nodes from which on, to the right, an odd number of nodes was in it.
pub(crate) fn run_row(g: &Grid, j: i32, row: &mut Bits)
    requires first { g.now.j0 ≤ℤ j }
    requires last { j ≤ℤ g.now.j1 }
    requires grid { row.old.grid ≡ g.now }
    ensures grid { row.new.grid ≡ g.now }
    ensures row { (f : ℤ → Bool) → f (g.now.i1 +ℤ pos 1) ≡ false
        → ((i : ℤ) → g.now.i0 ≤ℤ i → i ≤ℤ g.now.i1 → bit row.old (at i j) ≡ differs (f i) (f (i +ℤ pos 1)))
        → (i : ℤ) → g.now.i0 ≤ℤ i → i ≤ℤ g.now.i1 → bit row.new (at i j) ≡ f i }
    ensures others { (n : Node) → ¬ (n.j ≡ j) → Has row.new n ↔ Has row.old n }
{
    let columns = Places {
        first: g.i0,
        last: g.i1,
    };
    let mut odd = false;
    for k in 0..columns.count() {
        odd = run_node(g, g.i1 - k as i32, j, odd, row);
    }
}

/// Puts the node in column `i` and row `j` in where it was in and `odd` is false, or it was not in and `odd` is true.
fn run_node(g: &Grid, i: i32, j: i32, odd: bool, row: &mut Bits) -> bool
    requires window { IsInWindow g.now (at i j) }
    requires grid { row.old.grid ≡ g.now }
    ensures grid { row.new.grid ≡ g.now }
    ensures value { result ≡ differs (bit row.old (at i j)) odd }
    ensures node { bit row.new (at i j) ≡ result }
    ensures others { (n : Node) → ¬ (n ≡ at i j) → Has row.new n ↔ Has row.old n }
{
    let now_odd = row.get(i, j) != odd;
    row.set(i, j, now_odd);
    now_odd
}
