//! The strokes of a step that clears its feature.
ghost use Rattle.std.specs.Prelude.{◌≡◌, ◌*◌, ◌/◌, ◌≤◌, ◌<◌, max, IfOk, List, length, map};
ghost use Rattle.std.specs.List.{All};
ghost use Rattle.sn_geom.specs.declared.limits.TheConstants.{MOST_DIAMETER};
ghost use Rattle.sn_outline.specs.JobRule.{IsPitch, IsProper};
ghost use Rattle.sn_clear.specs.Window.{columns, rows, node_at};
ghost use Rattle.sn_raster.specs.Grid.{place};
ghost use Rattle.sn_clear.specs.Columns.{IsLeft};
ghost use Rattle.sn_clear.specs.Strokes.{clearing_strokes, field_of, reach_of, row_step, stroke_of, IsInside, IsWindowOf};

use crate::columns::push_columns;
use crate::field::Field;
use crate::planes::{keep_common, keep_rest, marks_of};
use crate::rows::sweep;
use crate::spot::{Run, Spot};
use crate::swept::swept;
use crate::window::{columns_of, point_at, rows_of};
use sn_geom::{Memory, Pt};
use sn_open::{Centres, Stroke, Strokes, dilated};
use sn_outline::StepJob;
use sn_raster::{Bits, Grid};
use std::alloc::Global;

/// The strokes of a step that clears its feature, over the step's free centres, for these targets.
///
/// First the maximal runs of useful centres in the selected rows, to and fro, and then a column for each target that they
/// leave. A useful centre is a free centre whose disc holds a target. A target that no disc about a free centre holds gets
/// no stroke.
pub fn strokes(
    alloc: Global,
    g: &Grid,
    s: &StepJob,
    c: &Centres,
    targets: &Bits,
) -> Result<Strokes, Memory>
    requires step { IsProper s.now }
    requires centres { c.now.grid ≡ g.now }
    requires targets { targets.now.grid ≡ g.now }
    ensures { IfOk result (λ strokes. strokes ≡ clearing_strokes s.now g.now c.now targets.now) }
{
    g.rule();
    let field = field_of(alloc, g, s.body.d, c.nodes(), targets)?;
    let mut runs = sweep(alloc, &field, row_step(s.radial, g.pitch))?;
    let mut left = left_by(alloc, g, s.body.d, &field, runs.as_slice(), targets)?;
    push_columns(&field, &mut runs, left.as_mut_slice())?;
    let strokes = strokes_of(alloc, g, runs.as_slice())?;
    Ok(strokes)
}

/// The window with the useful centres of a tool of diameter `d`.
fn field_of(
    alloc: Global,
    g: &Grid,
    d: u32,
    centres: &Bits,
    targets: &Bits,
) -> Result<Field, Memory>
    requires diameter { d ≤ MOST_DIAMETER }
    requires centres { centres.now.grid ≡ g.now }
    requires targets { targets.now.grid ≡ g.now }
    ensures { IfOk result (λ f. f ≡ field_of g.now d centres.now targets.now) }
{
    g.rule();
    let near = dilated(alloc, targets, d)?;
    let near_marks = marks_of(alloc, &near)?;
    let mut useful = marks_of(alloc, centres)?;
    keep_common(&mut useful, near_marks.as_slice());
    let reach = reach_of(d, g.pitch);
    Ok(Field::new(columns_of(g) as usize, rows_of(g) as usize, reach, useful))
}

/// The greatest squared distance, in pitches, of a node from the centre of a disc of diameter `d` that holds it.
fn reach_of(d: u32, pitch: u32) -> usize
    requires diameter { d ≤ MOST_DIAMETER }
    requires pitch { IsPitch pitch }
    ensures value { result ≡ reach_of d pitch }
    ensures size { result ≤ MOST_DIAMETER * MOST_DIAMETER }
{
    let diameter = d as usize;
    let pitch = pitch as usize;
    diameter * diameter / (4 * (pitch * pitch))
}

/// How many rows further the next selected row is.
fn row_step(radial: u32, pitch: u32) -> usize
    requires { IsPitch pitch }
    ensures value { result ≡ max 1 (radial / pitch) }
    ensures some { 1 ≤ result }
{
    (radial / pitch).max(1) as usize
}

/// The targets that no stroke of the rows covers.
fn left_by(
    alloc: Global,
    g: &Grid,
    d: u32,
    f: &Field,
    runs: &[Run],
    targets: &Bits,
) -> Result<Vec<bool>, Memory>
    requires diameter { d ≤ MOST_DIAMETER }
    requires sizes { IsWindowOf f.now g.now d }
    requires inside { All (IsInside g.now) runs.now }
    requires rows { All (λ run. run.from.row ≡ run.to.row) runs.now }
    requires targets { targets.now.grid ≡ g.now }
    ensures full { IfOk result (λ left. length left.items ≡ f.now.columns * f.now.rows) }
    ensures left { IfOk result (λ left. IsLeft f.now targets.now.marks left.items runs.now) }
{
    g.rule();
    let lines = swept(alloc, g, runs)?;
    let covered = dilated(alloc, &lines, d)?;
    let covered_marks = marks_of(alloc, &covered)?;
    let mut left = marks_of(alloc, targets)?;
    keep_rest(&mut left, covered_marks.as_slice());
    Ok(left)
}

/// The strokes of the runs.
fn strokes_of(alloc: Global, g: &Grid, runs: &[Run]) -> Result<Strokes, Memory>
    requires { All (IsInside g.now) runs.now }
    ensures { IfOk result (λ strokes. strokes ≡ map (stroke_of g.now) runs.now) }
{
    let mut strokes = Strokes::new(alloc);
    for run in runs {
        strokes.push(stroke_of(g, *run))?;
    }
    Ok(strokes)
}

/// The stroke of a run.
fn stroke_of(g: &Grid, run: Run) -> Stroke
    requires { IsInside g.now run }
    ensures { result ≡ stroke_of g.now run }
{
    Stroke {
        from: point_of(g, run.from),
        to: point_of(g, run.to),
    }
}

/// The point of a node.
fn point_of(g: &Grid, spot: Spot) -> Pt
    requires column { spot.column < columns g.now }
    requires row { spot.row < rows g.now }
    ensures { result ≡ place g.now.pitch (node_at g.now spot.column spot.row) }
{
    g.rule();
    point_at(g, spot.column as u32, spot.row as u32)
}
