//! How high material stands, and what moves cut of it.
ghost use Rattle.std.specs.Prelude.{◌≡◌, ◌≤◌, List, [], ◌∷◌, ◌++◌};
ghost use Rattle.sn_outline.specs.Job.{Job};
ghost use Rattle.sn_outline.specs.declared.job.StepJob.{StepJob};
ghost use Rattle.sn_raster.specs.Heights.{Pass, StandsFor};
ghost use Rattle.sn_open.specs.Planes.{AreAllowed};
ghost use Rattle.sn_link.specs.Moves.{MayMove, AreStraight, tip_after_moves};
ghost use Rattle.sn_link.specs.Plan.{IsHighest, passes_by};

use crate::moves::Move;
use sn_geom::{Body, REACH, Tip, Um};
use sn_open::Allowed;
use sn_raster::Heights;
use sn_raster::laws::grids;

/// The height over the allowed raw nodes over which no material is left: the raw bottom where none is.
pub(crate) fn highest(heights: &Heights, allowed: &Allowed) -> Um
    requires grid { allowed.now.plane.grid ≡ heights.now.grid }
    requires left { (job : Job) × (passes : List Pass) × StandsFor heights.now job passes }
    ensures { (job : Job) (step : StepJob) (passes : List Pass) → StandsFor heights.now job passes
        → AreAllowed allowed.now job step → IsHighest job step passes result }
{
    heights.grid().rule();
    grids();
    Um::of(heights.top_in(allowed.nodes()))
}

/// Takes away what a tool with this body surely cuts in its moves from a tip, and gives the tip after them.
pub(crate) fn cut_by_moves(heights: &mut Heights, body: &Body, tip: Tip, moves: &[Move]) -> Tip
    requires diameter { body.now.d ≤ REACH }
    requires point { body.now.e ≤ REACH }
    requires straight { AreStraight tip moves.now }
    ensures tip { result ≡ tip_after_moves tip moves.now }
    ensures grid { heights.new.grid ≡ heights.old.grid }
    ensures material { (job : Job) (passes : List Pass) → StandsFor heights.old job passes
        → StandsFor heights.new job (passes ++ passes_by body.now tip moves.now) }
{
    let mut at = tip;
    for to in moves {
        cut_by_move(heights, body, &at, to);
        at = at.after(&to.end());
    }
    at
}

/// Takes away what the tool surely cuts in a move: something where that is a feed from a known place, and else nothing.
fn cut_by_move(heights: &mut Heights, body: &Body, tip: &Tip, to: &Move)
    requires diameter { body.now.d ≤ REACH }
    requires point { body.now.e ≤ REACH }
    requires straight { MayMove tip.now to.now }
    ensures grid { heights.new.grid ≡ heights.old.grid }
    ensures material { (job : Job) (passes : List Pass) → StandsFor heights.old job passes
        → StandsFor heights.new job (passes ++ passes_by body.now tip.now (to.now ∷ [])) }
{
    match *to {
        Move::Rapid(_) => {}
        Move::Feed(end) => match *tip {
            Tip::Unknown => {}
            Tip::Height(_) => {}
            Tip::At(from) => heights.cut(body, &from, &end),
        },
    }
}
