//! The first causes of marks and of motions in rapid.
ghost use Rattle.std.specs.Prelude.{◌≡◌, ◌↔◌, ◌≤◌, ◌==◌, IsTrue, IsNone, IfSome, List, length};
ghost use Rattle.std.specs.List.{find};
ghost use Rattle.std.specs.Option.{option_copied};
ghost use Rattle.sn_geom.specs.declared.units.Cell.{Cell as CellContent};
ghost use Rattle.sn_geom.specs.declared.units.Pt3.{Pt3 as Pt3Content};
ghost use Rattle.sn_geom.specs.Acts.{Act};
ghost use Rattle.sn_geom.specs.Acts.Act.{Mark, Enter, Locate, Rapid};
ghost use Rattle.sn_geom.specs.Sweep.{IsHorizontalOrVertical};
ghost use Rattle.sn_raster.specs.Heights.{IsFirst, StandsFor};
ghost use Rattle.sn_open.specs.Good.{marks, body_of, passes};
ghost use Rattle.sn_open.specs.Verdict.{IsActCause};
ghost use Rattle.sn_sweep.specs.Causes.{TellsFirst, NamesStep, IsTouchedLeft};

use sn_geom::{Body, Cell, Pt3, REACH, Um};
use sn_open::Cause;
use sn_outline::{Job, StepJob};
use sn_raster::Heights;

/// The cause of a mark that names the step `n`, after a number of marks.
pub(crate) fn mark_cause(j: &Job, marked: u32, n: u32) -> Option<Cause>
    ensures { (before : List Act) → length (marks before) ≡ marked
        → TellsFirst (IsActCause j.now before (Mark n)) result }
{
    if names_step(j.steps(), marked as usize, n) {
        None
    } else {
        Some(Cause::WrongMark)
    }
}

/// Whether the step at this place has the instance number `ws`.
fn names_step(steps: &[StepJob], place: usize, ws: u32) -> bool
    ensures { IsTrue result ↔ NamesStep steps.now place ws }
{
    match steps.get(place) {
        Some(step) => step.ws == ws,
        None => false,
    }
}

/// The cause of a motion from an unknown place that ends at the height `z`.
pub(crate) fn entry_cause(j: &Job, z: Um) -> Option<Cause>
    ensures enter { (before : List Act) → TellsFirst (IsActCause j.now before (Enter z)) result }
    ensures locate { (before : List Act) (p : Pt3Content) → p.z ≡ z → TellsFirst (IsActCause j.now before (Locate p)) result }
{
    if z.get() < j.sec() {
        Some(Cause::LowEntry)
    } else {
        None
    }
}

/// The first cause of a motion in rapid, with the heights of the material that is left.
pub(crate) fn rapid_cause(
    j: &Job,
    heights: &Heights,
    from: &Pt3,
    to: &Pt3,
    tool: u32,
) -> Option<Cause>
    requires { IsHorizontalOrVertical from.now to.now }
    ensures { (before : List Act) → StandsFor heights.now j.now (passes j.now.steps before)
        → TellsFirst (IsActCause j.now before (Rapid from.now to.now tool)) result }
{
    j.rule();
    let Some(body) = body_with(j, tool) else {
        return Some(Cause::OtherTool);
    };
    first_left(heights, body.d, from, to).map(Cause::Crash)
}

/// The first cell that is left and that a tool of diameter `d` touches, its tip moving from `from` to `to`.
fn first_left(heights: &Heights, d: u32, from: &Pt3, to: &Pt3) -> Option<Cell>
    requires diameter { d ≤ REACH }
    requires not_slanted { IsHorizontalOrVertical from.now to.now }
    ensures some { IfSome result (IsFirst (IsTouchedLeft heights.now d from.now to.now)) }
    ensures none { IsNone result → (c : CellContent) → ¬ IsTouchedLeft heights.now d from.now to.now c }
{
    let grid = heights.grid();
    heights.first_touched(d, from, to, grid.bottom)
}

/// The body of the tool: that of the first step with it, and None where no step has it.
pub(crate) fn body_with(j: &Job, tool: u32) -> Option<Body>
    ensures { result ≡ body_of j.now.steps tool }
{
    first_with(j.steps(), tool).map(|step| step.body)
}

fn first_with(steps: &[StepJob], tool: u32) -> Option<&StepJob>
    ensures { option_copied result ≡ find (λ step. step.tool == tool) steps.now }
{
    steps.iter().find(|step| step.tool == tool)
}
