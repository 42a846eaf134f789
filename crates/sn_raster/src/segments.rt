//! Rows of nodes that are near segments.
ghost use Rattle.std.specs.Prelude.{◌≡◌, ◌↔◌, ◌⊎◌, ◌≤◌, ◌≤ℤ◌, ◌<ℤ◌, IsTrue};
ghost use Rattle.std.specs.List.{Any};
ghost use Rattle.sn_geom.specs.Sweep.{Near};
ghost use Rattle.sn_outline.specs.Polygon.{path};
ghost use Rattle.sn_raster.specs.Grid.{Node, IsInWindow, place};
ghost use Rattle.sn_raster.specs.Plane.{Has};

use crate::bits::Bits;
use crate::grid::Grid;
use crate::leads::column_on;
use crate::outlines::place_of;
use crate::places::Places;
use crate::reach::{all_columns, columns_near, rows_near};
use sn_geom::{Pt, REACH, Seg, near};

/// Takes the nodes of row `j` out.
pub(crate) fn clear_row(g: &Grid, j: i32, row: &mut Bits)
    requires first { g.now.j0 ≤ℤ j }
    requires last { j ≤ℤ g.now.j1 }
    requires grid { row.old.grid ≡ g.now }
    ensures grid { row.new.grid ≡ g.now }
    ensures row { (n : Node) → n.j ≡ j → ¬ Has row.new n }
    ensures others { (n : Node) → ¬ (n.j ≡ j) → Has row.new n ↔ Has row.old n }
{
    let columns = all_columns(g);
    row.set_run(&columns, j, false);
}

/// Puts the nodes of row `j` in that are within half of `d` of the path from `from` through the points.
pub(crate) fn mark_path(d: u32, from: &Pt, points: &[Pt], g: &Grid, j: i32, row: &mut Bits)
    requires diameter { d ≤ REACH }
    requires columns { g.now.i0 ≤ℤ g.now.i1 }
    requires first { g.now.j0 ≤ℤ j }
    requires last { j ≤ℤ g.now.j1 }
    requires grid { row.old.grid ≡ g.now }
    ensures grid { row.new.grid ≡ g.now }
    ensures row { (n : Node) → n.j ≡ j → IsInWindow g.now n → Has row.new n
        ↔ (Has row.old n ⊎ Any (λ e. Near d e.a e.b (place g.now.pitch n)) (path from.now points.now)) }
    ensures others { (n : Node) → ¬ (n.j ≡ j) → Has row.new n ↔ Has row.old n }
{
    let mut start = *from;
    for to in points {
        let edge = Seg { a: start, b: *to };
        mark_segment(d, &edge, g, j, row);
        start = *to;
    }
}

/// Puts the nodes of row `j` in that are within half of `d` of the segment.
pub(crate) fn mark_segment(d: u32, e: &Seg, g: &Grid, j: i32, row: &mut Bits)
    requires diameter { d ≤ REACH }
    requires columns { g.now.i0 ≤ℤ g.now.i1 }
    requires first { g.now.j0 ≤ℤ j }
    requires last { j ≤ℤ g.now.j1 }
    requires grid { row.old.grid ≡ g.now }
    ensures grid { row.new.grid ≡ g.now }
    ensures row { (n : Node) → n.j ≡ j → IsInWindow g.now n → Has row.new n
        ↔ (Has row.old n ⊎ Near d e.now.a e.now.b (place g.now.pitch n)) }
    ensures others { (n : Node) → ¬ (n.j ≡ j) → Has row.new n ↔ Has row.old n }
{
    let rows = rows_near(g, d, &e.a, &e.b);
    if j < rows.first {
        return;
    }
    if rows.last < j {
        return;
    }
    let columns = columns_in_row(d, e, g, j);
    mark_columns(d, e, &columns, g, j, row);
}

/// The columns of the window with all of its nodes of row `j` that are within half of `d` of the segment.
fn columns_in_row(d: u32, e: &Seg, g: &Grid, j: i32) -> Places
    requires diameter { d ≤ REACH }
    requires columns { g.now.i0 ≤ℤ g.now.i1 }
    requires first { g.now.j0 ≤ℤ j }
    requires last { j ≤ℤ g.now.j1 }
    ensures first { g.now.i0 ≤ℤ result.first }
    ensures last { result.last ≤ℤ g.now.i1 }
    ensures all { (n : Node) → IsInWindow g.now n → n.j ≡ j → Near d e.now.a e.now.b (place g.now.pitch n)
        → (result.first ≤ℤ n.i) × (n.i ≤ℤ result.last) }
{
    if d != 0 {
        return columns_near(g, d, &e.a, &e.b);
    }
    if is_below(&e.a, &e.b) {
        return column_on(&e.a, &e.b, g, j);
    }
    if is_below(&e.b, &e.a) {
        return column_on(&e.b, &e.a, g, j);
    }
    columns_near(g, d, &e.a, &e.b)
}

fn is_below(a: &Pt, b: &Pt) -> bool
    ensures { IsTrue result ↔ (a.now.y <ℤ b.now.y) }
{
    a.y.get() < b.y.get()
}

/// Puts the nodes of row `j` in these columns in that are within half of `d` of the segment.
fn mark_columns(d: u32, e: &Seg, columns: &Places, g: &Grid, j: i32, row: &mut Bits)
    requires diameter { d ≤ REACH }
    requires left { g.now.i0 ≤ℤ columns.now.first }
    requires right { columns.now.last ≤ℤ g.now.i1 }
    requires first { g.now.j0 ≤ℤ j }
    requires last { j ≤ℤ g.now.j1 }
    requires grid { row.old.grid ≡ g.now }
    requires all { (n : Node) → IsInWindow g.now n → n.j ≡ j → Near d e.now.a e.now.b (place g.now.pitch n)
        → (columns.now.first ≤ℤ n.i) × (n.i ≤ℤ columns.now.last) }
    ensures grid { row.new.grid ≡ g.now }
    ensures row { (n : Node) → n.j ≡ j → IsInWindow g.now n → Has row.new n
        ↔ (Has row.old n ⊎ Near d e.now.a e.now.b (place g.now.pitch n)) }
    ensures others { (n : Node) → ¬ (n.j ≡ j) → Has row.new n ↔ Has row.old n }
{
    for i in columns.first..columns.last + 1 {
        mark_node(d, e, g, i, j, row);
    }
}

/// Puts the node in column `i` and row `j` in where it is within half of `d` of the segment.
fn mark_node(d: u32, e: &Seg, g: &Grid, i: i32, j: i32, row: &mut Bits)
    requires diameter { d ≤ REACH }
    requires window { IsInWindow g.now (record { i = i; j = j }) }
    requires grid { row.old.grid ≡ g.now }
    ensures grid { row.new.grid ≡ g.now }
    ensures node { (n : Node) → n ≡ record { i = i; j = j } → Has row.new n ↔ (Has row.old n ⊎ Near d e.now.a e.now.b (place g.now.pitch n)) }
    ensures others { (n : Node) → ¬ (n ≡ record { i = i; j = j }) → Has row.new n ↔ Has row.old n }
{
    if near(d, e, &place_of(g, i, j)) {
        row.set(i, j, true);
    }
}
