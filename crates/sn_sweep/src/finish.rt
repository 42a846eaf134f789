//! The verdict of a checker on the whole program.
ghost use Rattle.std.specs.Prelude.{◌≡◌, ℕ, List, IfSome, IsNone};
ghost use Rattle.sn_geom.specs.Acts.{Act};
ghost use Rattle.sn_outline.specs.Job.{Job as JobContent};
ghost use Rattle.sn_raster.specs.Heights.{StandsFor};
ghost use Rattle.sn_open.specs.Good.{IsLeft, passes};
ghost use Rattle.sn_open.specs.Region.{IsRequiredCell};
ghost use Rattle.sn_open.specs.Verdict.{IsFirstLeft, IsVerdict};
ghost use Rattle.sn_sweep.specs.Checking.{HasRead, HasTaken};

use crate::checker::Checker;
use crate::left::first_left;
use sn_geom::Cell;
use sn_open::Verdict;
use sn_raster::laws::grids;

impl Checker<'_> {
    /// The verdict on the program, where all of it was taken.
    pub fn finish(&mut self) -> Verdict
        ensures verdict { (job : JobContent) (bytes : List ℕ) → HasTaken job bytes self.old → IsVerdict job bytes result }
    {
        self.end_line();
        self.verdict()
    }

    /// The verdict on the program, where all of its lines were read.
    fn verdict(&mut self) -> Verdict
        ensures { (job : JobContent) (text : List ℕ) → HasRead job text self.old → IsVerdict job text result }
    {
        grids();
        self.job.rule();
        if let Some(fault) = self.fault {
            return fault;
        }
        if !self.ended {
            return Verdict::NoEnd;
        }
        if let Some(step) = self.job.steps().get(self.marks as usize) {
            return Verdict::Missing(step.ws);
        }
        match self.uncovered() {
            Some((feature, cell)) => Verdict::Uncovered(feature, cell),
            None => Verdict::Yes,
        }
    }

    /// The first cell that has to be cut and is left, with the instance number of its feature.
    fn uncovered(&mut self) -> Option<(u32, Cell)>
        ensures some { IfSome result (λ found. (acts : List Act)
            → StandsFor self.old.heights self.old.job (passes self.old.job.steps acts)
            → IsFirstLeft self.old.job acts found.0 found.1) }
        ensures none { IsNone result → (acts : List Act)
            → StandsFor self.old.heights self.old.job (passes self.old.job.steps acts)
            → (feature : ℕ) (c : Cell) → IsRequiredCell self.old.job feature c → ¬ IsLeft self.old.job acts c }
    {
        match &mut self.planes {
            Some(planes) => first_left(self.job, self.grid, &self.heights, &mut planes.required),
            None => None,
        }
    }
}
