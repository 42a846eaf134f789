//! The nodes on the strokes of the rows.
ghost use Rattle.std.specs.Prelude.{◌≡◌, ◌↔◌, ◌⊎◌, ℕ, ◌<◌, IfOk};
ghost use Rattle.std.specs.List.{All};
ghost use Rattle.sn_raster.specs.Plane.{Has};
ghost use Rattle.sn_clear.specs.Window.{columns, rows, node_at};
ghost use Rattle.sn_clear.specs.Columns.{IsCentreOf};
ghost use Rattle.sn_clear.specs.Strokes.{IsInside, IsOnRuns};

use crate::spot::Run;
use crate::window::put_at;
use sn_geom::Memory;
use sn_raster::{Bits, Grid};
use std::alloc::Global;

/// The plane of the nodes on the strokes.
pub(crate) fn swept(alloc: Global, g: &Grid, runs: &[Run]) -> Result<Bits, Memory>
    requires inside { All (IsInside g.now) runs.now }
    requires rows { All (λ run. run.from.row ≡ run.to.row) runs.now }
    ensures grid { IfOk result (λ plane. plane.grid ≡ g.now) }
    ensures nodes { IfOk result (λ plane. (column row : ℕ) → column < columns g.now → row < rows g.now
        → Has plane (node_at g.now column row) ↔ IsOnRuns runs.now (record { column = column; row = row })) }
{
    let mut plane = Bits::new(alloc, g)?;
    for run in runs {
        put_run(&mut plane, g, *run);
    }
    Ok(plane)
}

/// Puts the nodes of a stroke along a row in.
fn put_run(plane: &mut Bits, g: &Grid, run: Run)
    requires grid { plane.old.grid ≡ g.now }
    requires inside { IsInside g.now run }
    requires row { run.from.row ≡ run.to.row }
    ensures grid { plane.new.grid ≡ g.now }
    ensures nodes { (column row : ℕ) → column < columns g.now → row < rows g.now → Has plane.new (node_at g.now column row)
        ↔ (Has plane.old (node_at g.now column row) ⊎ IsCentreOf run (record { column = column; row = row })) }
{
    g.rule();
    let row = run.from.row as u32;
    let first = run.from.column.min(run.to.column) as u32;
    let last = run.from.column.max(run.to.column) as u32;
    for column in first..last + 1 {
        put_at(plane, g, column, row, true);
    }
}
