//! Rows of nodes that are inside an outline.
ghost use Rattle.std.specs.Prelude.{◌≡◌, ◌↔◌, ℤ, pos, ◌*ℤ◌, ◌≤ℤ◌};
ghost use Rattle.sn_geom.specs.Length.{IsLength};
ghost use Rattle.sn_outline.specs.JobRule.{IsPitch};
ghost use Rattle.sn_outline.specs.Outline.{HasNearWidth, InOutline};
ghost use Rattle.sn_raster.specs.Grid.{Node, IsInWindow, place};
ghost use Rattle.sn_raster.specs.Plane.{Has};

use crate::bits::Bits;
use crate::grid::Grid;
use crate::shapes::{fill_disc, fill_polygon, fill_rectangle, fill_trail};
use sn_geom::{Pt, REACH, Um};
use sn_outline::{Outline, Shape, inside};

/// Puts the nodes of row `j` that are inside `o` into the plane, and takes the others of that row out.
pub fn fill_row(o: &Outline, g: &Grid, j: i32, row: &mut Bits)
    requires width { HasNearWidth o.now.shape }
    requires first { g.now.j0 ≤ℤ j }
    requires last { j ≤ℤ g.now.j1 }
    requires grid { row.old.grid ≡ g.now }
    ensures grid { row.new.grid ≡ g.now }
    ensures row { (i : ℤ) → g.now.i0 ≤ℤ i → i ≤ℤ g.now.i1
        → Has row.new (record { i = i; j = j }) ↔ InOutline o.now (place g.now.pitch (record { i = i; j = j })) }
    ensures others { (n : Node) → ¬ (n.j ≡ j) → Has row.new n ↔ Has row.old n }
{
    match &o.shape {
        Shape::Rect(low, high) => fill_rectangle(low, high, g, j, row),
        Shape::Circle(centre, d) if *d <= REACH => fill_disc(centre, *d, g, j, row),
        Shape::Circle(_, _) => fill_each(o, g, j, row),
        Shape::Polygon(points) => fill_polygon(points.as_slice(), g, j, row),
        Shape::Trail(points, width) => fill_trail(points.as_slice(), *width, g, j, row),
    }
}

/// Does the same node by node.
fn fill_each(o: &Outline, g: &Grid, j: i32, row: &mut Bits)
    requires width { HasNearWidth o.now.shape }
    requires first { g.now.j0 ≤ℤ j }
    requires last { j ≤ℤ g.now.j1 }
    requires grid { row.old.grid ≡ g.now }
    ensures grid { row.new.grid ≡ g.now }
    ensures row { (i : ℤ) → g.now.i0 ≤ℤ i → i ≤ℤ g.now.i1
        → Has row.new (record { i = i; j = j }) ↔ InOutline o.now (place g.now.pitch (record { i = i; j = j })) }
    ensures others { (n : Node) → ¬ (n.j ≡ j) → Has row.new n ↔ Has row.old n }
{
    for i in g.i0..g.i1 + 1 {
        let on = inside(o, &place_of(g, i, j));
        row.set(i, j, on);
    }
}

/// Where the node in column `i` and row `j` is.
pub(crate) fn place_of(g: &Grid, i: i32, j: i32) -> Pt
    requires { IsInWindow g.now (record { i = i; j = j }) }
    ensures { result ≡ place g.now.pitch (record { i = i; j = j }) }
{
    g.rule();
    Pt {
        x: coordinate(i, g.pitch),
        y: coordinate(j, g.pitch),
    }
}

/// The coordinate of a column or a row.
fn coordinate(k: i32, pitch: u32) -> Um
    requires pitch { IsPitch pitch }
    requires range { IsLength (k *ℤ pos pitch) }
    ensures { result ≡ k *ℤ pos pitch }
{
    Um::of(k * pitch as i32)
}
