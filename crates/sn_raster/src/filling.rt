//! Planes of the nodes that are inside an outline or near a segment.
ghost use Rattle.std.specs.Prelude.{◌≡◌, ◌↔◌, ◌⊎◌, ◌≤◌, ◌≤ℤ◌};
ghost use Rattle.sn_geom.specs.Sweep.{Disc, Near};
ghost use Rattle.sn_outline.specs.Outline.{HasNearWidth, InOutline};
ghost use Rattle.sn_raster.specs.Grid.{Node, IsInWindow, place};
ghost use Rattle.sn_raster.specs.Plane.{Has};

use crate::bits::Bits;
use crate::grid::Grid;
use crate::outlines::fill_row;
use crate::places::Places;
use crate::reach::{all_rows, rows_near, rows_within};
use crate::segments::mark_segment;
use sn_geom::laws::nearness;
use sn_geom::{Pt, REACH, Seg};
use sn_outline::{Outline, Shape};

/// Makes it the plane of the nodes of the window that are in the outline.
pub fn fill(o: &Outline, plane: &mut Bits)
    requires { HasNearWidth o.now.shape }
    ensures grid { plane.new.grid ≡ plane.old.grid }
    ensures nodes { (n : Node) → Has plane.new n ↔ (IsInWindow plane.old.grid n × InOutline o.now (place plane.old.grid.pitch n)) }
{
    let g = plane.grid();
    plane.clear();
    let rows = rows_of(o, &g);
    for j in rows.first..rows.last + 1 {
        fill_row(o, &g, j, plane);
    }
}

/// Rows of the window with all of its nodes that are in the outline.
fn rows_of(o: &Outline, g: &Grid) -> Places
    ensures first { g.now.j0 ≤ℤ result.first }
    ensures last { result.last ≤ℤ g.now.j1 }
    ensures all { (n : Node) → IsInWindow g.now n → InOutline o.now (place g.now.pitch n)
        → (result.first ≤ℤ n.j) × (n.j ≤ℤ result.last) }
{
    match &o.shape {
        Shape::Rect(low, high) => rows_within(g, low.y, high.y),
        Shape::Circle(centre, d) => rows_of_disc(g, centre, *d),
        Shape::Polygon(_) => all_rows(g),
        Shape::Trail(_, _) => all_rows(g),
    }
}

/// Rows of the window with all of its nodes that are in the disc about `centre`.
fn rows_of_disc(g: &Grid, centre: &Pt, d: u32) -> Places
    ensures first { g.now.j0 ≤ℤ result.first }
    ensures last { result.last ≤ℤ g.now.j1 }
    ensures all { (n : Node) → IsInWindow g.now n → Disc d centre.now (place g.now.pitch n)
        → (result.first ≤ℤ n.j) × (n.j ≤ℤ result.last) }
{
    nearness();
    if REACH < d {
        return all_rows(g);
    }
    rows_near(g, d, centre, centre)
}

/// Puts in the nodes of the window within half of `d` of the segment.
pub fn add_near(d: u32, segment: &Seg, plane: &mut Bits)
    requires { d ≤ REACH }
    ensures grid { plane.new.grid ≡ plane.old.grid }
    ensures nodes { (n : Node) → Has plane.new n
        ↔ (Has plane.old n ⊎ (IsInWindow plane.old.grid n × Near d segment.now.a segment.now.b (place plane.old.grid.pitch n))) }
{
    let g = plane.grid();
    if g.i1 < g.i0 {
        return;
    }
    let rows = rows_near(&g, d, &segment.a, &segment.b);
    for j in rows.first..rows.last + 1 {
        mark_segment(d, segment, &g, j, plane);
    }
}
