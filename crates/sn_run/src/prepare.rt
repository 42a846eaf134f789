//! The job of a sound model with its grid.
ghost use Rattle.std.specs.Prelude.{◌≡◌, ◌≢◌, IfOk, IfErr};
ghost use Rattle.sn_raster.specs.Grid.{FitsGrid, IsGridOf};
ghost use Rattle.sn_run.specs.Part.{IsPreparedJob, IsRefusedJob};

use sn_flow::laws::jobs;
use sn_flow::{JobFault, job};
use sn_geom::Memory;
use sn_open::first_small;
use sn_outline::Job;
use sn_raster::{Big, Grid};
use sn_refs::Checked;
use sn_words::Opts;
use std::alloc::Global;

/// The job of a sound model under the words of a command, where its grid is not too big and sees each feature.
///
/// It is refused with the first fault of the job, and where that has none, with `GridTooBig` or with `TooSmall` and the number of
/// the first executed feature that the grid does not see.
pub fn prepare(alloc: Global, c: &Checked, o: &Opts) -> Result<Job, JobFault>
    ensures prepared { IfOk result (IsPreparedJob c.now o.now) }
    ensures refused { IfErr result (λ fault. fault ≢ JobFault.Memory → IsRefusedJob c.now o.now fault) }
{
    jobs();
    let job = job(alloc, c, o)?;
    let Ok(grid) = Grid::new(&job) else {
        return Err(JobFault::GridTooBig);
    };
    match first_small(alloc, &job, &grid) {
        Ok(None) => Ok(job),
        Ok(Some(feature)) => Err(JobFault::TooSmall(feature)),
        Err(Memory) => Err(JobFault::Memory),
    }
}

/// The grid of a job.
pub fn grid_of(job: &Job) -> Grid
    requires { FitsGrid job.now }
    ensures { IsGridOf result job.now }
{
    match Grid::new(job) {
        Ok(grid) => grid,
        Err(Big) => unreachable!(),
    }
}
