//! What a column stroke covers.
ghost use Rattle.std.specs.Prelude.{◌≡◌, ℕ, ◌+◌, ◌*◌, ◌/◌, ◌<◌, ◌≤◌, ◌⊎◌, ◌&&◌, not, false, length, slice_index_or};
ghost use Rattle.sn_clear.specs.Field.{apart, spot_of};
ghost use Rattle.sn_clear.specs.Columns.{IsColumn, covers, nearest_place};

use crate::field::Field;
use crate::spot::Run;

/// Takes the nodes that the column stroke covers out of those that are left.
pub(crate) fn take_covered(f: &Field, stroke: Run, left: &mut [bool])
    requires column { IsColumn f.now stroke }
    requires full { length left.old ≡ f.now.columns * f.now.rows }
    ensures { (k : ℕ) → k < f.now.columns * f.now.rows
        → slice_index_or left.new k false ≡ slice_index_or left.old k false && not (covers f.now stroke (spot_of f.now k)) }
{
    f.rule();
    let radius = f.reach().isqrt();
    let first = stroke.from.row.saturating_sub(radius);
    let end = (stroke.to.row + radius + 1).min(f.rows());
    for row in first..end {
        take_covered_in(f, stroke, row, left);
    }
}

/// Takes the nodes of the row that the column stroke covers out of those that are left.
fn take_covered_in(f: &Field, stroke: Run, row: usize, left: &mut [bool])
    requires column { IsColumn f.now stroke }
    requires row { row < f.now.rows }
    requires full { length left.old ≡ f.now.columns * f.now.rows }
    ensures row { (k : ℕ) → k < f.now.columns * f.now.rows → k / f.now.columns ≡ row
        → slice_index_or left.new k false ≡ slice_index_or left.old k false && not (covers f.now stroke (spot_of f.now k)) }
    ensures others { (k : ℕ) → k < f.now.columns * f.now.rows → ¬ (k / f.now.columns ≡ row)
        → slice_index_or left.new k false ≡ slice_index_or left.old k false }
{
    f.rule();
    let apart = rows_apart(stroke, row);
    if apart * apart > f.reach() {
        return;
    }
    let width = (f.reach() - apart * apart).isqrt();
    let first = stroke.from.column.saturating_sub(width);
    let end = (stroke.from.column + width + 1).min(f.columns());
    let start = row * f.columns();
    take_range(left, start + first, start + end);
}

/// How far the row is from the nearest node of the column stroke.
fn rows_apart(stroke: Run, row: usize) -> usize
    requires { stroke.from.row ≤ stroke.to.row }
    ensures { result ≡ apart (nearest_place stroke.from.row stroke.to.row row) row }
{
    if row < stroke.from.row {
        stroke.from.row - row
    } else {
        row.saturating_sub(stroke.to.row)
    }
}

/// Takes the nodes of the numbers from `first` to before `end` out of those that are left.
fn take_range(left: &mut [bool], first: usize, end: usize)
    requires order { first ≤ end }
    requires end { end ≤ length left.old }
    ensures inside { (k : ℕ) → first ≤ k → k < end → slice_index_or left.new k false ≡ false }
    ensures outside { (k : ℕ) → (k < first) ⊎ (end ≤ k) → slice_index_or left.new k false ≡ slice_index_or left.old k false }
{
    for k in first..end {
        left[k] = false;
    }
}
