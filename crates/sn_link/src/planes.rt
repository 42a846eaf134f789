//! The planes of a step.
ghost use Rattle.std.specs.Prelude.{◌≡◌, IfOk, Contains};
ghost use Rattle.sn_outline.specs.Job.{Job as JobContent};
ghost use Rattle.sn_outline.specs.JobRule.{IsProper};
ghost use Rattle.sn_raster.specs.Grid.{IsGridOf};
ghost use Rattle.sn_open.specs.Planes.{AreCentres, IsGridWith, IsOpeningPlane};
ghost use Rattle.sn_link.specs.Layers.{AreStrokes, AreTargets};
ghost use Rattle.sn_link.specs.Planner.{ArePlanesOf, ArePlanesOver};

use sn_clear::strokes;
use sn_fit::{drill_strokes, trail_strokes};
use sn_geom::Memory;
use sn_open::{Allowed, Centres, Opening, Required, Strokes};
use sn_outline::{Job, StepJob, Way};
use sn_raster::{Bits, Grid};
use std::alloc::Global;

/// The planes of a step, made once and filled for each step.
#[derive(Drop)]
pub(crate) struct Planes {
    pub(crate) allowed: Allowed,
    pub(crate) opening: Opening,
    /// The free centres, of a clearing step alone.
    pub(crate) centres: Centres,
    required: Required,
    /// What a clearing step has to cut.
    pub(crate) targets: Bits,
}

impl Planes {
    /// Planes over the grid of a job.
    pub(crate) fn of(alloc: Global, j: &Job, g: &Grid, first: &StepJob) -> Result<Planes, Memory>
        requires grid { IsGridOf g.now j.now }
        requires executed { Contains j.now.steps first.now }
        ensures { IfOk result (ArePlanesOver g.now) }
    {
        j.rule();
        let allowed = Allowed::of(alloc, first, g)?;
        let opening = Opening::of(alloc, first, g)?;
        let centres = Centres::of(alloc, first, g)?;
        let required = Required::of(alloc, j, first.feature, g)?;
        let targets = Bits::new(alloc, g)?;
        Ok(Planes {
            allowed,
            opening,
            centres,
            required,
            targets,
        })
    }

    /// Makes them the planes of a step.
    pub(crate) fn refill(&mut self, j: &Job, g: &Grid, step: &StepJob)
        requires grid { IsGridOf g.now j.now }
        requires executed { Contains j.now.steps step.now }
        requires own { ArePlanesOver g.now self.old }
        ensures over { ArePlanesOver g.now self.new }
        ensures own { ArePlanesOf self.new j.now step.now }
    {
        j.rule();
        self.allowed.refill(step, g);
        self.opening.refill(step, g);
        match step.way {
            Way::Clear => self.refill_targets(j, g, step),
            Way::Trail => {}
            Way::Drill => {}
        }
    }

    /// The strokes of a step whose planes these are.
    pub(crate) fn strokes(&self, alloc: Global, g: &Grid, step: &StepJob) -> Result<Strokes, Memory>
        requires proper { IsProper step.now }
        requires over { ArePlanesOver g.now self.now }
        ensures { IfOk result (λ strokes. (job : JobContent) → ArePlanesOf self.now job step.now → AreStrokes job step.now strokes) }
    {
        match step.way {
            Way::Clear => {
                let strokes = strokes(alloc, g, step, &self.centres, &self.targets)?;
                Ok(strokes)
            }
            Way::Trail => {
                let strokes = trail_strokes(alloc, step)?;
                Ok(strokes)
            }
            Way::Drill => {
                let strokes = drill_strokes(alloc, step, &self.opening)?;
                Ok(strokes)
            }
        }
    }

    /// Makes the centres and the targets those of a step whose nodes it opens are filled.
    fn refill_targets(&mut self, j: &Job, g: &Grid, step: &StepJob)
        requires grid { IsGridOf g.now j.now }
        requires executed { Contains j.now.steps step.now }
        requires own { ArePlanesOver g.now self.old }
        requires opening { IsOpeningPlane self.old.opening j.now step.now }
        ensures over { ArePlanesOver g.now self.new }
        ensures allowed { self.new.allowed ≡ self.old.allowed }
        ensures opening { self.new.opening ≡ self.old.opening }
        ensures centres { AreCentres self.new.centres j.now step.now }
        ensures targets { AreTargets self.new.targets j.now step.now }
    {
        j.rule();
        self.centres.refill(step, g);
        self.required.refill(j, step.feature, g);
        self.targets
            .both(self.required.nodes(), self.opening.nodes());
    }
}
