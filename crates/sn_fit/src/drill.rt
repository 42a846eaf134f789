//! The strokes of a step that drills.
ghost use Rattle.std.specs.Prelude.{◌≡◌, ◌<◌, ℕ, IfOk, IsTrue};
ghost use Rattle.sn_outline.specs.Job.{Job};
ghost use Rattle.sn_outline.specs.JobRule.{IsCircle, IsProper};
ghost use Rattle.sn_outline.specs.declared.job.Way.TheVariants as way;
ghost use Rattle.sn_raster.specs.Grid.{Node};
ghost use Rattle.sn_raster.specs.Plane.{Has, IsEmpty};
ghost use Rattle.sn_open.specs.Planes.{IsOpeningPlane};
ghost use Rattle.sn_open.specs.Window.{columns, rows, node_at};
ghost use Rattle.sn_fit.specs.Fit.{AreDrillStrokes};

use sn_geom::{Memory, Pt};
use sn_open::{Opening, Stroke, Strokes, columns_of, has_at, rows_of};
use sn_outline::{Shape, StepJob};
use sn_raster::{Bits, Grid};
use std::alloc::Global;

/// The strokes of a step that drills, by the nodes that it opens: one of no length at its centre, and none where it opens
/// no node.
pub fn drill_strokes(alloc: Global, s: &StepJob, opening: &Opening) -> Result<Strokes, Memory>
    requires proper { IsProper s.now }
    requires drilled { s.now.way ≡ way.Drill }
    ensures { IfOk result (λ strokes. (job : Job) → IsOpeningPlane opening.now job s.now → AreDrillStrokes job s.now strokes) }
{
    let mut strokes = Strokes::new(alloc);
    if !has_node(opening.nodes()) {
        return Ok(strokes);
    }
    let from = centre_of(&s.outline.shape);
    let to = from;
    strokes.push(Stroke { from, to })?;
    Ok(strokes)
}

/// The centre of a circle.
fn centre_of(shape: &Shape) -> Pt
    requires { IsCircle shape.now }
    ensures { (d : ℕ) × (shape.now ≡ Shape.Circle result d) }
{
    match shape {
        Shape::Rect(_, _) => unreachable!(),
        Shape::Circle(centre, _) => *centre,
        Shape::Polygon(_) => unreachable!(),
        Shape::Trail(_, _) => unreachable!(),
    }
}

/// Whether the plane has a node.
fn has_node(plane: &Bits) -> bool
    ensures yes { IsTrue result → (n : Node) × Has plane.now n }
    ensures no { ¬ IsTrue result → IsEmpty plane.now }
{
    let g = plane.grid();
    for row in 0..rows_of(&g) {
        if has_node_in(plane, &g, row) {
            return true;
        }
    }
    false
}

/// Whether the plane has a node in the row.
fn has_node_in(plane: &Bits, g: &Grid, row: u32) -> bool
    requires grid { plane.now.grid ≡ g.now }
    requires row { row < rows g.now }
    ensures yes { IsTrue result → (n : Node) × Has plane.now n }
    ensures no { ¬ IsTrue result → (column : ℕ) → column < columns g.now → ¬ Has plane.now (node_at g.now column row) }
{
    for column in 0..columns_of(g) {
        if has_at(plane, g, column, row) {
            return true;
        }
    }
    false
}
