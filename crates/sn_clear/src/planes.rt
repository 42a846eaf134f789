//! Planes of nodes as lists of marks.
ghost use Rattle.std.specs.Prelude.{◌≡◌, ℕ, ◌*◌, ◌≤◌, ◌<◌, ◌&&◌, not, false, length, slice_index_or, IfOk, OnOk, ◌+◌};
ghost use Rattle.sn_clear.specs.Window.{columns, rows, AreMarks};

use crate::window::{columns_of, has_at, rows_of};
use sn_geom::Memory;
use sn_raster::{Bits, Grid};
use std::alloc::Global;

/// The marks of the nodes of the window, row by row, and in a row column by column.
pub(crate) fn marks_of(alloc: Global, plane: &Bits) -> Result<Vec<bool>, Memory>
    ensures { IfOk result (λ marks. AreMarks plane.now (columns plane.now.grid * rows plane.now.grid) marks.items) }
{
    let g = plane.grid();
    let mut marks = Vec::new(alloc);
    for row in 0..rows_of(&g) {
        push_marks(plane, &g, row, &mut marks)?;
    }
    Ok(marks)
}

/// Adds the marks of the nodes of a row.
fn push_marks(plane: &Bits, g: &Grid, row: u32, marks: &mut Vec<bool>) -> Result<(), Memory>
    requires grid { plane.now.grid ≡ g.now }
    requires row { row < rows g.now }
    requires before { AreMarks plane.now (row * columns g.now) marks.old.items }
    ensures { OnOk result (AreMarks plane.now ((row + 1) * columns g.now) marks.new.items) }
{
    for column in 0..columns_of(g) {
        marks.push(mark_at(plane, g, column, row))?;
    }
    Ok(())
}

/// The mark of the node in this column and row.
fn mark_at(plane: &Bits, g: &Grid, column: u32, row: u32) -> bool
    requires grid { plane.now.grid ≡ g.now }
    requires column { column < columns g.now }
    requires row { row < rows g.now }
    ensures { result ≡ slice_index_or plane.now.marks (row * columns g.now + column) false }
{
    has_at(plane, g, column, row)
}

/// Keeps the marks that the others have too.
pub(crate) fn keep_common(marks: &mut Vec<bool>, others: &[bool])
    requires { length others.now ≡ length marks.old.items }
    ensures full { length marks.new.items ≡ length marks.old.items }
    ensures marks { (k : ℕ) → k < length marks.old.items → slice_index_or marks.new.items k false
        ≡ slice_index_or marks.old.items k false && slice_index_or others.now k false }
{
    for k in 0..marks.len() {
        marks[k] = marks[k] && others[k];
    }
}

/// Keeps the marks that the others have not.
pub(crate) fn keep_rest(marks: &mut Vec<bool>, others: &[bool])
    requires { length others.now ≡ length marks.old.items }
    ensures full { length marks.new.items ≡ length marks.old.items }
    ensures marks { (k : ℕ) → k < length marks.old.items → slice_index_or marks.new.items k false
        ≡ slice_index_or marks.old.items k false && not (slice_index_or others.now k false) }
{
    for k in 0..marks.len() {
        marks[k] = marks[k] && !others[k];
    }
}
