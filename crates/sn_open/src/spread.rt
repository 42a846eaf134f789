//! How marked nodes spread over the window of a plane.
ghost use Rattle.std.specs.Prelude.{◌≡◌, ◌↔◌, ◌+◌, ◌≤◌, ◌<◌, ℕ, length, slice_index, IsTrue};
ghost use Rattle.sn_raster.specs.Grid.{Node, IsInWindow};
ghost use Rattle.sn_raster.specs.Plane.{Has};
ghost use Rattle.sn_open.specs.Window.{columns, rows};
ghost use Rattle.sn_open.specs.Spread.{place_in, AreHalfWidths, AreGaps, IsReach, GainsInRow, IsCovered, Gains, HasTakenIn, HasAllTakenIn};

use crate::window::{clear, columns_of, is_marked_at, put_at, rows_of};
use sn_raster::{Bits, Grid};

/// A direction along the columns or the rows.
#[derive(Clone, Copy)]
pub(crate) enum Direction {
    Rising,
    Falling,
}

/// The `k`-th of `n` places in a direction, counted from 0.
fn place_of(direction: Direction, n: u32, k: u32) -> u32
    requires { k < n }
    ensures value { result ≡ place_in direction n k }
    ensures size { result < n }
{
    match direction {
        Direction::Rising => k,
        Direction::Falling => n - 1 - k,
    }
}

/// Makes the plane that of the nodes that marked nodes of another cover.
///
/// A mark covers the nodes less than `widths[k]` columns away in the rows that are `k` away. `gaps` is room for a number a
/// column.
pub(crate) fn spread(from: &Bits, on: bool, widths: &[u32], gaps: &mut [u32], to: &mut Bits)
    requires grid { to.old.grid ≡ from.now.grid }
    requires widths { AreHalfWidths (rows from.now.grid) widths.now }
    requires room { length gaps.old ≡ columns from.now.grid }
    ensures grid { to.new.grid ≡ from.now.grid }
    ensures nodes { (n : Node) → Has to.new n ↔ (IsInWindow from.now.grid n × IsCovered from.now on widths.now n) }
{
    let g = from.grid();
    clear(to, &g);
    spread_rows(from, on, widths, gaps, to, &g, Direction::Rising);
    spread_rows(from, on, widths, gaps, to, &g, Direction::Falling);
}

/// Puts in what marks take in over the rows in one direction.
fn spread_rows(
    from: &Bits,
    on: bool,
    widths: &[u32],
    gaps: &mut [u32],
    to: &mut Bits,
    g: &Grid,
    along: Direction,
)
    requires grid { from.now.grid ≡ g.now }
    requires to_grid { to.old.grid ≡ g.now }
    requires widths { AreHalfWidths (rows from.now.grid) widths.now }
    requires room { length gaps.old ≡ columns from.now.grid }
    ensures gains { Gains from.now on widths.now to.old to.new }
    ensures rising { HasAllTakenIn from.now on (record { columns = Direction.Rising; rows = along }) widths.now to.new (rows from.now.grid) }
    ensures falling { HasAllTakenIn from.now on (record { columns = Direction.Falling; rows = along }) widths.now to.new (rows from.now.grid) }
{
    let count = rows_of(g);
    gaps.fill(count);
    for row in 0..count {
        spread_row(from, on, widths, gaps, to, g, along, row);
    }
}

/// Puts in what marks take in of a row.
fn spread_row(
    from: &Bits,
    on: bool,
    widths: &[u32],
    gaps: &mut [u32],
    to: &mut Bits,
    g: &Grid,
    along: Direction,
    row: u32,
)
    requires grid { from.now.grid ≡ g.now }
    requires to_grid { to.old.grid ≡ g.now }
    requires row { row < rows from.now.grid }
    requires widths { AreHalfWidths (rows from.now.grid) widths.now }
    requires gaps { AreGaps from.now on along row gaps.old }
    ensures gaps { AreGaps from.now on along (row + 1) gaps.new }
    ensures gains { Gains from.now on widths.now to.old to.new }
    ensures rising { HasTakenIn from.now on (record { columns = Direction.Rising; rows = along }) widths.now row to.new (columns from.now.grid) }
    ensures falling { HasTakenIn from.now on (record { columns = Direction.Falling; rows = along }) widths.now row to.new (columns from.now.grid) }
{
    pass_row(from, on, g, along, row, gaps);
    let at = place_of(along, rows_of(g), row);
    take_in(widths, gaps, to, g, Direction::Rising, at);
    take_in(widths, gaps, to, g, Direction::Falling, at);
}

/// Makes the gaps before a row those after it.
fn pass_row(from: &Bits, on: bool, g: &Grid, along: Direction, row: u32, gaps: &mut [u32])
    requires grid { from.now.grid ≡ g.now }
    requires row { row < rows from.now.grid }
    requires gaps { AreGaps from.now on along row gaps.old }
    ensures { AreGaps from.now on along (row + 1) gaps.new }
{
    let count = rows_of(g);
    let at = place_of(along, count, row);
    for column in 0..columns_of(g) {
        let marked = is_marked_at(from, on, g, column, at);
        gaps[column as usize] = gap_after(gaps[column as usize], marked, count);
    }
}

/// The gap after a row, by that before it and whether the node in the row is marked.
fn gap_after(gap: u32, marked: bool, rows: u32) -> u32
    ensures marked { IsTrue marked → result ≡ 0 }
    ensures more { result ≤ gap + 1 }
    ensures unmarked { ¬ IsTrue marked → result < rows → result ≡ gap + 1 }
    ensures few { result ≤ rows }
{
    if marked {
        return 0;
    }
    gap.saturating_add(1).min(rows)
}

/// Puts in the nodes of a row that marks reach over the columns in one direction.
fn take_in(widths: &[u32], gaps: &[u32], to: &mut Bits, g: &Grid, across: Direction, row: u32)
    requires grid { to.old.grid ≡ g.now }
    requires row { row < rows g.now }
    requires full { length gaps.now ≡ columns g.now }
    requires few { (k : ℕ) → k < columns g.now → slice_index gaps.now k < length widths.now }
    ensures { GainsInRow widths.now gaps.now across g.now row (columns g.now) to.old to.new }
{
    let count = columns_of(g);
    let mut reach: u64 = 0;
    for k in 0..count {
        let column = place_of(across, count, k);
        reach = reach.max(u64::from(k) + u64::from(widths[gaps[column as usize] as usize]));
        if reach > u64::from(k) {
            put_at(to, g, column, row, true);
        }
    }
}
