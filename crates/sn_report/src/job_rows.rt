//! The counts of a job.
ghost use Rattle.std.specs.Prelude.{◌≡◌, IfOk, [], None};
ghost use Rattle.sn_geom.specs.declared.tip.Tip.TheVariants.{Unknown};
ghost use Rattle.sn_raster.specs.Grid.{IsGridOf};
ghost use Rattle.sn_link.specs.Counts.{AreCountedPlans, moves_of};
ghost use Rattle.sn_link.specs.Plan.{IsPlan, with_moves};
ghost use Rattle.sn_report.specs.JobCounts.{AreCountsOf, count_rows, row_of};

use crate::{CountRow, CountRows, Counts};
use sn_geom::Memory;
use sn_link::PlannedStep;
use sn_open::{columns_of, rows_of};
use sn_outline::{Job, StepJob};
use sn_raster::Grid;
use std::alloc::Global;

/// The counts of a job: a row for each planned step, in order, and the nodes of the window across and up.
pub fn job_counts(
    alloc: Global,
    job: &Job,
    g: &Grid,
    plans: &[PlannedStep],
) -> Result<Counts, Memory>
    requires grid { IsGridOf g.now job.now }
    requires plan { IsPlan job.now (with_moves job.now.steps (moves_of plans.now)) }
    requires counted { AreCountedPlans job.now [] None Unknown job.now.steps plans.now }
    ensures { IfOk result (AreCountsOf job.now) }
{
    let rows = count_rows(alloc, job.steps(), plans)?;
    Ok(Counts {
        across: columns_of(g),
        up: rows_of(g),
        rows,
    })
}

/// The rows of the steps, each with what is planned of it.
fn count_rows(alloc: Global, steps: &[StepJob], plans: &[PlannedStep]) -> Result<CountRows, Memory>
    ensures { IfOk result (λ rows. rows ≡ count_rows steps.now plans.now) }
{
    let mut rows = CountRows::new(alloc);
    for (step, planned) in steps.iter().zip(plans) {
        rows.push(row_of(step, planned))?;
    }
    Ok(rows)
}

/// The row of a step.
fn row_of(step: &StepJob, planned: &PlannedStep) -> CountRow
    ensures { result ≡ row_of step.now planned.now }
{
    CountRow {
        ws: step.ws,
        tool: step.tool,
        strokes: planned.strokes,
        layers: planned.layers,
        lifts: planned.lifts,
        cells: planned.cells,
    }
}
