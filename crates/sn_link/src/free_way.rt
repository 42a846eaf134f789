//! Whether the whole tool is over allowed nodes along a segment.
ghost use Rattle.std.specs.Prelude.{◌≡◌, ◌↔◌, ◌*◌, ◌≤◌, ◌<◌, ℕ, IsTrue, pos, ◌+ℤ◌, ◌*ℤ◌};
ghost use Rattle.sn_geom.specs.Length.{IsLength};
ghost use Rattle.sn_outline.specs.Job.{Job};
ghost use Rattle.sn_outline.specs.JobRule.{IsPitch, IsProper};
ghost use Rattle.sn_raster.specs.Grid.{Node, IsInWindow, place};
ghost use Rattle.sn_raster.specs.Plane.{Has};
ghost use Rattle.sn_open.specs.Planes.{AreAllowed, IsGridWith};
ghost use Rattle.sn_open.specs.Window.{columns, rows, node_at};
ghost use Rattle.sn_link.specs.Layers.{IsFreeWay};
ghost use Rattle.sn_link.specs.Layering.{IsLacking};

use crate::span::{Span, columns_near, rows_near};
use sn_geom::{Pt, REACH, Seg, Um, near};
use sn_open::laws::outside;
use sn_open::{Allowed, has_at};
use sn_outline::StepJob;
use sn_raster::{Bits, Grid};

/// Whether the whole tool of a step is over allowed nodes along the segment from a place to another.
pub(crate) fn is_free_way(allowed: &Allowed, step: &StepJob, from: &Pt, to: &Pt) -> bool
    requires executed { IsGridWith allowed.now.plane.grid step.now }
    requires proper { IsProper step.now }
    ensures { (job : Job) → AreAllowed allowed.now job step.now → IsTrue result ↔ IsFreeWay job step.now from.now to.now }
{
    outside();
    let way = Seg { a: *from, b: *to };
    !lacks_any(allowed.nodes(), step.body.d, &way)
}

/// Whether the plane lacks a node of the window within half of `d` of the segment.
fn lacks_any(plane: &Bits, d: u32, way: &Seg) -> bool
    requires { d ≤ REACH }
    ensures yes { IsTrue result → (n : Node) × IsLacking plane.now d way.now n }
    ensures no { ¬ IsTrue result → (n : Node) → ¬ IsLacking plane.now d way.now n }
{
    let g = plane.grid();
    let rows = rows_near(&g, d, way);
    let columns = columns_near(&g, d, way);
    for row in rows.from..rows.to {
        if lacks_any_in(plane, d, way, &g, columns, row) {
            return true;
        }
    }
    false
}

/// Whether the plane lacks a node of the row, in the columns of the span, within half of `d` of the segment.
fn lacks_any_in(plane: &Bits, d: u32, way: &Seg, g: &Grid, span: Span, row: u32) -> bool
    requires diameter { d ≤ REACH }
    requires grid { plane.now.grid ≡ g.now }
    requires span { span.to ≤ columns g.now }
    requires row { row < rows g.now }
    ensures yes { IsTrue result → (n : Node) × IsLacking plane.now d way.now n }
    ensures no { ¬ IsTrue result → (column : ℕ) → span.from ≤ column → column < span.to
        → ¬ IsLacking plane.now d way.now (node_at g.now column row) }
{
    for column in span.from..span.to {
        if lacks_at(plane, d, way, g, column, row) {
            return true;
        }
    }
    false
}

/// Whether the node in this column and row is within half of `d` of the segment, and the plane lacks it.
fn lacks_at(plane: &Bits, d: u32, way: &Seg, g: &Grid, column: u32, row: u32) -> bool
    requires diameter { d ≤ REACH }
    requires grid { plane.now.grid ≡ g.now }
    requires column { column < columns g.now }
    requires row { row < rows g.now }
    ensures { IsTrue result ↔ IsLacking plane.now d way.now (node_at g.now column row) }
{
    !has_at(plane, g, column, row) && near(d, way, &point_at(g, column, row))
}

/// Where the node in this column and row is.
fn point_at(g: &Grid, column: u32, row: u32) -> Pt
    requires column { column < columns g.now }
    requires row { row < rows g.now }
    ensures { result ≡ place g.now.pitch (node_at g.now column row) }
{
    g.rule();
    Pt {
        x: coordinate_of(g.i0, column, g.pitch),
        y: coordinate_of(g.j0, row, g.pitch),
    }
}

/// The coordinate of the place that comes `k` after the first.
fn coordinate_of(first: i32, k: u32, pitch: u32) -> Um
    requires first { IsLength first }
    requires count { k ≤ 2 * REACH }
    requires pitch { IsPitch pitch }
    requires range { IsLength ((first +ℤ pos k) *ℤ pos pitch) }
    ensures { result ≡ (first +ℤ pos k) *ℤ pos pitch }
{
    Um::of((first + k as i32) * pitch as i32)
}
