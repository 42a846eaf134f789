//! The sweep: strokes over the selected rows.
ghost use Rattle.std.specs.Prelude.{◌≡◌, ◌+◌, ◌<◌, ◌≤◌, IfOk};
ghost use Rattle.sn_clear.specs.Rows.{has_useful, useful_rows, row_number, is_selected, line_at, sweep};

use crate::field::Field;
use crate::runs::push_runs;
use crate::spot::{Line, Run, Spot};
use sn_geom::Memory;
use std::alloc::Global;

/// The strokes of the selected rows: those whose number is a multiple of `every`, and the last.
pub(crate) fn sweep(alloc: Global, f: &Field, every: usize) -> Result<Vec<Run>, Memory>
    requires { 1 ≤ every }
    ensures { IfOk result (λ strokes. strokes.items ≡ sweep f.now every) }
{
    let all = useful_rows(f);
    let mut strokes = Vec::new(alloc);
    let mut number = 0;
    let mut place = 0;
    for row in 0..f.rows() {
        if is_selected(f, every, all, number, row) {
            push_runs(f, line_of(row, place), &mut strokes)?;
            place += 1;
        }
        if has_useful(f, row) {
            number += 1;
        }
    }
    Ok(strokes)
}

/// Whether the row has a useful centre.
fn has_useful(f: &Field, row: usize) -> bool
    requires { row < f.now.rows }
    ensures { result ≡ has_useful f.now row }
{
    for column in 0..f.columns() {
        if f.is_useful(Spot { column, row }) {
            return true;
        }
    }
    false
}

/// How many rows have a useful centre.
fn useful_rows(f: &Field) -> usize
    ensures { result ≡ useful_rows f.now }
{
    let mut count = 0;
    for row in 0..f.rows() {
        if has_useful(f, row) {
            count += 1;
        }
    }
    count
}

/// Whether the row is selected: it has a useful centre, and its number is a multiple of `every`, or it is the last of `all`.
fn is_selected(f: &Field, every: usize, all: usize, number: usize, row: usize) -> bool
    requires every { 1 ≤ every }
    requires all { all ≡ useful_rows f.now }
    requires number { number ≡ row_number f.now row }
    requires size { number ≤ row }
    requires row { row < f.now.rows }
    ensures { result ≡ is_selected f.now every row }
{
    f.rule();
    has_useful(f, row) && (number % every == 0 || number + 1 == all)
}

/// The row in the direction of its place among the selected rows.
fn line_of(row: usize, place: usize) -> Line
    ensures { result ≡ line_at row place }
{
    if place % 2 == 0 {
        Line::Rising(row)
    } else {
        Line::Falling(row)
    }
}
