//! Runs of useful centres on a line.
ghost use Rattle.std.specs.Prelude.{◌≡◌, ◌+◌, ◌-◌, ◌<◌, ◌≤◌, ◌++◌, OnOk};
ghost use Rattle.sn_clear.specs.Field.{Field as FieldContent, IsSpot};
ghost use Rattle.sn_clear.specs.Places.{begins, run_start};
ghost use Rattle.sn_clear.specs.Runs.{places_on, spot_on, is_useful_on, end_on, run_between, runs_on, IsLine};

use crate::field::Field;
use crate::spot::{Line, Run, Spot};
use sn_geom::Memory;

/// How many nodes the line has.
pub(crate) fn places_on(f: &Field, line: Line) -> usize
    ensures { result ≡ places_on f.now line }
{
    match line {
        Line::Rising(_) | Line::Falling(_) => f.columns(),
        Line::Up(_) => f.rows(),
    }
}

/// The node at a place of the line.
pub(crate) fn spot_on(f: &Field, line: Line, k: usize) -> Spot
    requires line { IsLine f.now line }
    requires place { k < places_on f.now line }
    ensures value { result ≡ spot_on f.now line k }
    ensures inside { IsSpot f.now result }
{
    match line {
        Line::Rising(row) => Spot { column: k, row },
        Line::Falling(row) => Spot {
            column: f.columns() - 1 - k,
            row,
        },
        Line::Up(column) => Spot { column, row: k },
    }
}

/// Whether the node at a place of the line is a useful centre.
pub(crate) fn is_useful_on(f: &Field, line: Line, k: usize) -> bool
    requires line { IsLine f.now line }
    requires place { k < places_on f.now line }
    ensures { result ≡ is_useful_on f.now line k }
{
    f.is_useful(spot_on(f, line, k))
}

/// Whether a run of useful centres begins at a place of the line.
fn begins(f: &Field, line: Line, k: usize) -> bool
    requires line { IsLine f.now line }
    requires place { k < places_on f.now line }
    ensures { result ≡ begins (is_useful_on f.now line) k }
{
    is_useful_on(f, line, k) && (k == 0 || !is_useful_on(f, line, k - 1))
}

/// The first place of the run that goes through a place of the line.
pub(crate) fn start_on(f: &Field, line: Line, k: usize) -> usize
    requires line { IsLine f.now line }
    requires place { k < places_on f.now line }
    ensures value { result ≡ run_start (is_useful_on f.now line) k }
    ensures before { result ≤ k }
{
    let mut start = k;
    while start > 0 && is_useful_on(f, line, start - 1) {
        start -= 1;
    }
    start
}

/// The last place of the run that goes on from a place of the line.
pub(crate) fn end_on(f: &Field, line: Line, k: usize) -> usize
    requires line { IsLine f.now line }
    requires place { k < places_on f.now line }
    ensures value { result ≡ end_on f.now line k }
    ensures after { k ≤ result }
    ensures within { result < places_on f.now line }
{
    let count = places_on(f, line);
    let mut end = k;
    while end + 1 < count && is_useful_on(f, line, end + 1) {
        end += 1;
    }
    end
}

/// The stroke from one place of the line to another.
pub(crate) fn run_between(f: &Field, line: Line, from: usize, to: usize) -> Run
    requires line { IsLine f.now line }
    requires from { from < places_on f.now line }
    requires to { to < places_on f.now line }
    ensures { result ≡ run_between f.now line from to }
{
    Run {
        from: spot_on(f, line, from),
        to: spot_on(f, line, to),
    }
}

/// Adds the maximal runs of useful centres on the line, on its way.
pub(crate) fn push_runs(f: &Field, line: Line, strokes: &mut Vec<Run>) -> Result<(), Memory>
    requires { IsLine f.now line }
    ensures { OnOk result (strokes.new.items ≡ strokes.old.items ++ runs_on f.now line) }
{
    for k in 0..places_on(f, line) {
        if begins(f, line, k) {
            let end = end_on(f, line, k);
            strokes.push(run_between(f, line, k, end))?;
        }
    }
    Ok(())
}
