//! The planes of the current step and of a feature.
ghost use Rattle.std.specs.Prelude.{◌≡◌, ◌<◌, length, Some, slice_get, IfOk};
ghost use Rattle.sn_outline.specs.declared.job.StepJob.{StepJob as Step};
ghost use Rattle.sn_raster.specs.Grid.{IsGridOf};
ghost use Rattle.sn_open.specs.Planes.{AreAllowed};
ghost use Rattle.sn_sweep.specs.Kept.{allowed_of, HasPlanes};

use sn_geom::Memory;
use sn_open::{Allowed, Required};
use sn_outline::Job;
use sn_raster::Grid;
use std::alloc::Global;

/// The planes of a job that has steps.
#[derive(Drop)]
pub(crate) struct Planes {
    /// The cells that the current step may cut.
    pub(crate) allowed: Allowed,
    /// The nodes over which a feature has to be cut.
    pub(crate) required: Required,
}

impl Planes {
    /// Planes over the grid of the job, where it has steps.
    pub(crate) fn of(alloc: Global, j: &Job, g: &Grid) -> Result<Option<Planes>, Memory>
        requires { IsGridOf g.now j.now }
        ensures { IfOk result (λ planes. HasPlanes g.now j.now.steps planes) }
    {
        j.rule();
        match j.steps().first() {
            None => Ok(None),
            Some(step) => {
                let allowed = Allowed::of(alloc, step, g)?;
                let required = Required::of(alloc, j, step.feature, g)?;
                Ok(Some(Planes { allowed, required }))
            }
        }
    }

    /// Makes the allowed cells those of the job's step at a place in their order.
    pub(crate) fn make_current(&mut self, j: &Job, place: u32, g: &Grid)
        requires own { self.old.allowed.plane.grid ≡ g.now }
        requires grid { IsGridOf g.now j.now }
        requires executed { place < length j.now.steps }
        ensures grid { self.new.allowed.plane.grid ≡ g.now }
        ensures required { self.new.required ≡ self.old.required }
        ensures allowed { (step : Step) → slice_get j.now.steps place ≡ Some step
            → AreAllowed self.new.allowed j.now step }
    {
        j.rule();
        let step = &j.steps()[place as usize];
        self.allowed.refill(step, g);
    }
}

/// Makes the allowed cells those of the job's step at a place in their order.
pub(crate) fn make_current(planes: &mut Option<Planes>, j: &Job, place: u32, g: &Grid)
    requires grid { IsGridOf g.now j.now }
    requires planes { HasPlanes g.now j.now.steps planes.old }
    requires executed { place < length j.now.steps }
    ensures planes { HasPlanes g.now j.now.steps planes.new }
    ensures allowed { (step : Step) → slice_get j.now.steps place ≡ Some step
        → AreAllowed (allowed_of g.now planes.new) j.now step }
{
    match planes {
        None => {}
        Some(planes) => planes.make_current(j, place, g),
    }
}
