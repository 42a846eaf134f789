//! Rows of nodes that are in rectangles, circles, polygons and trails.
ghost use Rattle.std.specs.Prelude.{◌≡◌, ◌↔◌, ◌⊎◌, ◌≤◌, ℤ, pos, ◌≤ℤ◌, IsTrue};
ghost use Rattle.std.specs.List.{Any};
ghost use Rattle.sn_geom.specs.Sweep.{Disc, Near};
ghost use Rattle.sn_outline.specs.Outline.{InRectangle, NearTrail};
ghost use Rattle.sn_outline.specs.Polygon.{path, crosses_right, InPolygon};
ghost use Rattle.sn_raster.specs.Grid.{Node, place};
ghost use Rattle.sn_raster.specs.Plane.{Has};
ghost use Rattle.sn_raster.specs.RowTurns.{at, is_odd};

use crate::bits::Bits;
use crate::grid::Grid;
use crate::leads::height_of_row;
use crate::reach::columns_within;
use crate::segments::{clear_row, mark_path, mark_segment};
use crate::turns::{run_row, turn_path};
use sn_geom::laws::nearness;
use sn_geom::{Pt, REACH, Seg, Um};
use sn_outline::laws::shapes;

/// Puts the nodes of row `j` in that are in the rectangle, and takes the others of that row out.
pub(crate) fn fill_rectangle(low: &Pt, high: &Pt, g: &Grid, j: i32, row: &mut Bits)
    requires first { g.now.j0 ≤ℤ j }
    requires last { j ≤ℤ g.now.j1 }
    requires grid { row.old.grid ≡ g.now }
    ensures grid { row.new.grid ≡ g.now }
    ensures row { (i : ℤ) → g.now.i0 ≤ℤ i → i ≤ℤ g.now.i1 → Has row.new (at i j) ↔ InRectangle low.now high.now (place g.now.pitch (at i j)) }
    ensures others { (n : Node) → ¬ (n.j ≡ j) → Has row.new n ↔ Has row.old n }
{
    clear_row(g, j, row);
    if g.i1 < g.i0 {
        return;
    }
    if !is_between(low.y, high.y, height_of_row(g, j)) {
        return;
    }
    let columns = columns_within(g, low.x, high.x);
    row.set_run(&columns, j, true);
}

fn is_between(low: Um, high: Um, value: Um) -> bool
    ensures { IsTrue result ↔ ((low ≤ℤ value) × (value ≤ℤ high)) }
{
    low.get() <= value.get() && value.get() <= high.get()
}

/// Puts the nodes of row `j` in that are in the disc about `centre`, and takes the others of that row out.
pub(crate) fn fill_disc(centre: &Pt, d: u32, g: &Grid, j: i32, row: &mut Bits)
    requires diameter { d ≤ REACH }
    requires first { g.now.j0 ≤ℤ j }
    requires last { j ≤ℤ g.now.j1 }
    requires grid { row.old.grid ≡ g.now }
    ensures grid { row.new.grid ≡ g.now }
    ensures row { (i : ℤ) → g.now.i0 ≤ℤ i → i ≤ℤ g.now.i1 → Has row.new (at i j) ↔ Disc d centre.now (place g.now.pitch (at i j)) }
    ensures others { (n : Node) → ¬ (n.j ≡ j) → Has row.new n ↔ Has row.old n }
{
    nearness();
    clear_row(g, j, row);
    if g.i1 < g.i0 {
        return;
    }
    let spot = Seg {
        a: *centre,
        b: *centre,
    };
    mark_segment(d, &spot, g, j, row);
}

/// Puts the nodes of row `j` in that are in the polygon, and takes the others of that row out.
pub(crate) fn fill_polygon(points: &[Pt], g: &Grid, j: i32, row: &mut Bits)
    requires first { g.now.j0 ≤ℤ j }
    requires last { j ≤ℤ g.now.j1 }
    requires grid { row.old.grid ≡ g.now }
    ensures grid { row.new.grid ≡ g.now }
    ensures row { (i : ℤ) → g.now.i0 ≤ℤ i → i ≤ℤ g.now.i1 → Has row.new (at i j) ↔ InPolygon points.now (place g.now.pitch (at i j)) }
    ensures others { (n : Node) → ¬ (n.j ≡ j) → Has row.new n ↔ Has row.old n }
{
    clear_row(g, j, row);
    if g.i1 < g.i0 {
        return;
    }
    match points.last() {
        Some(last) => fill_around(last, points, g, j, row),
        None => {}
    }
}

/// Puts the nodes of an empty row `j` in that are in the polygon with these points, of which `last` is the last.
fn fill_around(last: &Pt, points: &[Pt], g: &Grid, j: i32, row: &mut Bits)
    requires columns { g.now.i0 ≤ℤ g.now.i1 }
    requires first { g.now.j0 ≤ℤ j }
    requires last { j ≤ℤ g.now.j1 }
    requires grid { row.old.grid ≡ g.now }
    requires clear { (n : Node) → n.j ≡ j → ¬ Has row.old n }
    ensures grid { row.new.grid ≡ g.now }
    ensures row { (i : ℤ) → g.now.i0 ≤ℤ i → i ≤ℤ g.now.i1 → Has row.new (at i j)
        ↔ (Any (λ e. Near 0 e.a e.b (place g.now.pitch (at i j))) (path last.now points.now)
        ⊎ IsTrue (is_odd (crosses_right (place g.now.pitch (at i j))) (path last.now points.now))) }
    ensures others { (n : Node) → ¬ (n.j ≡ j) → Has row.new n ↔ Has row.old n }
{
    turn_path(last, points, g, j, row);
    run_row(g, j, row);
    mark_path(0, last, points, g, j, row);
}

/// Puts the nodes of row `j` in that are near the trail, and takes the others of that row out.
pub(crate) fn fill_trail(points: &[Pt], width: u32, g: &Grid, j: i32, row: &mut Bits)
    requires width { width ≤ REACH }
    requires first { g.now.j0 ≤ℤ j }
    requires last { j ≤ℤ g.now.j1 }
    requires grid { row.old.grid ≡ g.now }
    ensures grid { row.new.grid ≡ g.now }
    ensures row { (i : ℤ) → g.now.i0 ≤ℤ i → i ≤ℤ g.now.i1 → Has row.new (at i j) ↔ NearTrail points.now width (place g.now.pitch (at i j)) }
    ensures others { (n : Node) → ¬ (n.j ≡ j) → Has row.new n ↔ Has row.old n }
{
    shapes();
    clear_row(g, j, row);
    if g.i1 < g.i0 {
        return;
    }
    match points.split_first() {
        Some((first, rest)) => mark_path(width, first, rest, g, j, row),
        None => {}
    }
}
