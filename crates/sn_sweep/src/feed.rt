//! The first cause of a motion at feed.
ghost use Rattle.std.specs.Prelude.{◌≡◌, ◌↔◌, ◌+◌, ◌-◌, ◌<◌, ◌≤◌, pos, ◌+ℤ◌, IsTrue, IfSome, IsNone, List, length, slice_get};
ghost use Rattle.std.specs.Option.{option_copied};
ghost use Rattle.std.specs.Int.{int_min};
ghost use Rattle.sn_geom.specs.declared.units.Cell.{Cell as CellContent};
ghost use Rattle.sn_geom.specs.Acts.{Act};
ghost use Rattle.sn_geom.specs.Acts.Act.{Feed};
ghost use Rattle.sn_geom.specs.Sweep.{IsHorizontalOrVertical, IsVertical};
ghost use Rattle.sn_outline.specs.declared.job.StepJob.{StepJob as StepContent};
ghost use Rattle.sn_outline.specs.JobRule.{IsProper};
ghost use Rattle.sn_raster.specs.Heights.{IsFirst, StandsFor};
ghost use Rattle.sn_open.specs.Good.{marks, IsCurrent, passes};
ghost use Rattle.sn_open.specs.Planes.{AreAllowed};
ghost use Rattle.sn_open.specs.Verdict.{IsActCause};
ghost use Rattle.sn_sweep.specs.Causes.{TellsFirst, IsDeepCell, IsStepCause, deep_from};

use sn_geom::{Cell, NO_DEPTH, Pt3, REACH, Um};
use sn_open::laws::gouging;
use sn_open::verdict_laws::motion_causes;
use sn_open::{Allowed, Cause, Gouges};
use sn_outline::{Job, StepJob};
use sn_raster::Heights;

/// The first cause of a motion at feed after a number of marks, with the heights of the material that is left and the cells
/// that the current step may cut.
///
/// The feed is in mm/min, the speed in rev/min, and the tool is the number of that in the spindle.
pub(crate) fn feed_cause(
    j: &Job,
    heights: &Heights,
    allowed: &Allowed,
    marked: u32,
    from: &Pt3,
    to: &Pt3,
    feed: u32,
    speed: u32,
    tool: u32,
) -> Option<Cause>
    requires grid { allowed.now.plane.grid ≡ heights.now.grid }
    requires not_slanted { IsHorizontalOrVertical from.now to.now }
    ensures { (before : List Act) → length (marks before) ≡ marked
        → StandsFor heights.now j.now (passes j.now.steps before)
        → ((step : StepContent) → IsCurrent j.now before step → AreAllowed allowed.now j.now step)
        → TellsFirst (IsActCause j.now before (Feed from.now to.now feed speed tool)) result }
{
    gouging();
    motion_causes();
    j.rule();
    if marked == 0 {
        return Some(Cause::Early);
    }
    match current_step(j, marked) {
        Some(step) => step_cause(heights, allowed, step, from, to, feed, speed, tool),
        None => None,
    }
}

/// The step that is current after a number of marks.
fn current_step(j: &Job, marked: u32) -> Option<&StepJob>
    requires { 0 < marked }
    ensures { option_copied result ≡ slice_get j.now.steps (marked - 1) }
{
    j.steps().get(marked as usize - 1)
}

/// The first cause of a feed of the step.
fn step_cause(
    heights: &Heights,
    allowed: &Allowed,
    step: &StepJob,
    from: &Pt3,
    to: &Pt3,
    feed: u32,
    speed: u32,
    tool: u32,
) -> Option<Cause>
    requires proper { IsProper step.now }
    requires grid { allowed.now.plane.grid ≡ heights.now.grid }
    requires not_slanted { IsHorizontalOrVertical from.now to.now }
    ensures { TellsFirst (IsStepCause heights.now allowed.now step.now from.now to.now feed speed tool) result }
{
    if tool != step.tool {
        return Some(Cause::OtherTool);
    }
    if feed != step.feed {
        return Some(Cause::OtherFeed);
    }
    if speed != step.speed {
        return Some(Cause::OtherSpeed);
    }
    if let Some(cell) = heights.first_gouged(step.body.d, from, to, allowed) {
        return Some(Cause::Gouge(cell));
    }
    first_deep(heights, step, from, to).map(Cause::Deep)
}

/// The first cell that the step's tool touches deeper than the step's axial depth, on a way that is not one of Z alone.
fn first_deep(heights: &Heights, step: &StepJob, from: &Pt3, to: &Pt3) -> Option<Cell>
    requires proper { IsProper step.now }
    requires not_slanted { IsHorizontalOrVertical from.now to.now }
    ensures some { IfSome result (IsFirst (IsDeepCell heights.now step.now from.now to.now)) }
    ensures none { IsNone result → (c : CellContent) → ¬ IsDeepCell heights.now step.now from.now to.now c }
{
    if is_vertical(from, to) {
        return None;
    }
    heights.first_touched(step.body.d, from, to, height_too_deep(step, from.z, to.z))
}

fn is_vertical(from: &Pt3, to: &Pt3) -> bool
    ensures { IsTrue result ↔ IsVertical from.now to.now }
{
    from.x == to.x && from.y == to.y
}

/// The height from which a cell is too deep for the step, on a way between the heights `a` and `b`.
fn height_too_deep(step: &StepJob, a: Um, b: Um) -> i32
    requires { IsProper step.now }
    ensures { result ≡ deep_from step.now a b }
{
    over_lower(a, b, step.body.e + step.axial)
}

/// The lower of the heights `a` and `b`, and `by` over it.
fn over_lower(a: Um, b: Um, by: u32) -> i32
    requires { by ≤ REACH + NO_DEPTH }
    ensures { result ≡ int_min a b +ℤ pos by }
{
    a.get().min(b.get()) + by as i32
}
