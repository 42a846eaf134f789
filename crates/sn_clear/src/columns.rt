//! Column strokes for the targets that the rows leave.
ghost use Rattle.std.specs.Prelude.{◌≡◌, ℕ, ◌+◌, ◌*◌, ◌<◌, ◌≤◌, ◌++◌, ◌&&◌, not, false, List, Bool, length, slice_index_or, IfSome, OnOk};
ghost use Rattle.sn_clear.specs.Field.{IsSpot, spot_of};
ghost use Rattle.sn_clear.specs.Columns.{IsColumn, IsLeft, centre_in, centre_for, column_through, column_for, is_covered, with_columns};

use crate::cover::take_covered;
use crate::field::Field;
use crate::runs::{end_on, run_between, start_on};
use crate::spot::{Line, Run, Spot};
use sn_geom::Memory;

/// Adds a column stroke for each target that is left, in the order of their numbers, until none is.
pub(crate) fn push_columns(
    f: &Field,
    strokes: &mut Vec<Run>,
    left: &mut [bool],
) -> Result<(), Memory>
    requires { length left.old ≡ f.now.columns * f.now.rows }
    ensures { (targets : List Bool) → IsLeft f.now targets left.old strokes.old.items
        → OnOk result (strokes.new.items ≡ with_columns f.now targets strokes.old.items) }
{
    for k in 0..f.nodes() {
        if left[k] {
            push_column(f, k, strokes, left)?;
        }
    }
    Ok(())
}

/// Adds the column stroke for the node of a number, and takes what it covers out of those that are left.
fn push_column(f: &Field, k: usize, strokes: &mut Vec<Run>, left: &mut [bool]) -> Result<(), Memory>
    requires number { k < f.now.columns * f.now.rows }
    requires full { length left.old ≡ f.now.columns * f.now.rows }
    ensures strokes { OnOk result (strokes.new.items ≡ strokes.old.items ++ column_for f.now (spot_of f.now k)) }
    ensures left { OnOk result ((m : ℕ) → m < f.now.columns * f.now.rows → slice_index_or left.new m false
        ≡ slice_index_or left.old m false && not (is_covered f.now (column_for f.now (spot_of f.now k)) (spot_of f.now m))) }
{
    let Some(centre) = centre_for(f, f.spot_of(k)) else {
        return Ok(());
    };
    let stroke = column_through(f, centre);
    strokes.push(stroke)?;
    take_covered(f, stroke, left);
    Ok(())
}

/// The maximal run of useful centres in the column of one of them.
fn column_through(f: &Field, centre: Spot) -> Run
    requires { IsSpot f.now centre }
    ensures value { result ≡ column_through f.now centre }
    ensures column { IsColumn f.now result }
{
    let line = Line::Up(centre.column);
    let start = start_on(f, line, centre.row);
    let end = end_on(f, line, centre.row);
    run_between(f, line, start, end)
}

/// The useful centre of least column, and then of least row, whose disc holds the node.
fn centre_for(f: &Field, spot: Spot) -> Option<Spot>
    requires { IsSpot f.now spot }
    ensures value { result ≡ centre_for f.now spot }
    ensures inside { IfSome result (IsSpot f.now) }
{
    f.rule();
    let radius = f.reach().isqrt();
    for column in spot.column.saturating_sub(radius)..(spot.column + radius + 1).min(f.columns()) {
        let centre = centre_in(f, spot, column);
        if centre.is_some() {
            return centre;
        }
    }
    None
}

/// The useful centre of least row in the column whose disc holds the node.
fn centre_in(f: &Field, spot: Spot, column: usize) -> Option<Spot>
    requires spot { IsSpot f.now spot }
    requires column { column < f.now.columns }
    ensures value { result ≡ centre_in f.now spot column }
    ensures inside { IfSome result (IsSpot f.now) }
{
    f.rule();
    let across = column.abs_diff(spot.column);
    if across * across > f.reach() {
        return None;
    }
    let height = (f.reach() - across * across).isqrt();
    for row in spot.row.saturating_sub(height)..(spot.row + height + 1).min(f.rows()) {
        let centre = Spot { column, row };
        if f.is_useful(centre) {
            return Some(centre);
        }
    }
    None
}
