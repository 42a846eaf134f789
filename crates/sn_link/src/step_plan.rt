//! The plan of a step.
ghost use Rattle.std.specs.Prelude.{◌≡◌, ◌<◌, IfOk, List, [], Contains, length, slice_get};
ghost use Rattle.sn_outline.specs.Job.{Job as JobContent};
ghost use Rattle.sn_outline.specs.declared.job.StepJob.{StepJob as StepContent};
ghost use Rattle.sn_raster.specs.Heights.{Pass, StandsFor};
ghost use Rattle.sn_open.specs.Planes.{AreAllowed};
ghost use Rattle.sn_link.specs.Counts.{AreCounts, strokes_in};
ghost use Rattle.sn_link.specs.Layers.{AreStrokes};
ghost use Rattle.sn_link.specs.Moves.{tip_at};
ghost use Rattle.sn_link.specs.Plan.{IsStepPlan};
ghost use Rattle.sn_link.specs.Safe.{AreWithin, IsAtSecurity};

use crate::layers::{cut_in_layers, lowest};
use crate::material::highest;
use crate::moves::Moves;
use sn_clear::laws::clearing;
use sn_geom::{Memory, Pt3, Tip, Um};
use sn_open::{Allowed, Stroke};
use sn_outline::{Job, StepJob};
use sn_raster::Heights;
use std::alloc::Global;

/// The moves of a step, and what is counted of them.
#[derive(Drop)]
pub struct Planned {
    pub moves: Moves,
    /// How many layers are cut.
    pub layers: u64,
    /// How often the tool is lifted in all layers.
    pub lifts: u64,
}

/// The moves of the step of a job with the index `k`, over the material that is left, along its strokes: from a point at the
/// security height where one is given, and else from anywhere at the security height.
pub fn plan_step(
    alloc: Global,
    j: &Job,
    k: usize,
    ok: &Allowed,
    h: &Heights,
    start: Option<Pt3>,
    s: &[Stroke],
) -> Result<Planned, Memory>
    requires step { k < length j.now.steps }
    requires strokes { (step : StepContent) → slice_get j.now.steps k ≡ Some step → AreStrokes j.now step s.now }
    requires allowed { (step : StepContent) → slice_get j.now.steps k ≡ Some step → AreAllowed ok.now j.now step }
    requires left { (passes : List Pass) × StandsFor h.now j.now passes }
    requires above { IsAtSecurity j.now (tip_at j.now start) }
    ensures planned { IfOk result (λ planned. (step : StepContent) (passes : List Pass) → slice_get j.now.steps k ≡ Some step
        → StandsFor h.now j.now passes → IsStepPlan j.now step passes (tip_at j.now start) planned.moves) }
    ensures within { IfOk result (λ planned. AreWithin planned.moves) }

    // The strokes are counted where there are moves.
    ensures counts { IfOk result (λ planned. (step : StepContent) (passes : List Pass) → slice_get j.now.steps k ≡ Some step
        → StandsFor h.now j.now passes
        → AreCounts j.now step passes planned.moves (strokes_in planned.moves s.now) planned.layers planned.lifts) }
{
    let steps = j.steps();
    let planned = planned_of(alloc, j, &steps[k], ok, h, start, s)?;
    Ok(planned)
}

/// The moves of an executed step, and what is counted of them.
fn planned_of(
    alloc: Global,
    j: &Job,
    step: &StepJob,
    ok: &Allowed,
    h: &Heights,
    start: Option<Pt3>,
    s: &[Stroke],
) -> Result<Planned, Memory>
    requires executed { Contains j.now.steps step.now }
    requires strokes { AreStrokes j.now step.now s.now }
    requires allowed { AreAllowed ok.now j.now step.now }
    requires left { (passes : List Pass) × StandsFor h.now j.now passes }
    requires above { IsAtSecurity j.now (tip_at j.now start) }
    ensures planned { IfOk result (λ planned. (passes : List Pass) → StandsFor h.now j.now passes
        → IsStepPlan j.now step.now passes (tip_at j.now start) planned.moves) }
    ensures within { IfOk result (λ planned. AreWithin planned.moves) }
    ensures counts { IfOk result (λ planned. (passes : List Pass) → StandsFor h.now j.now passes
        → AreCounts j.now step.now passes planned.moves (strokes_in planned.moves s.now) planned.layers planned.lifts) }
{
    clearing();
    j.rule();
    let above = highest(h, ok);
    if above.get() <= lowest(step).get() {
        return Ok(Planned::none(alloc));
    }
    if s.is_empty() {
        return Ok(Planned::none(alloc));
    }
    let sec = security(j);
    let tip = tip_at(sec, start);
    let planned = cut_in_layers(alloc, sec, step, tip, above, ok, s)?;
    Ok(planned)
}

impl Planned {
    /// No moves.
    fn none(alloc: Global) -> Planned
        ensures moves { result.moves ≡ [] }
        ensures layers { result.layers ≡ 0 }
        ensures lifts { result.lifts ≡ 0 }
    {
        Planned {
            moves: Moves::new(alloc),
            layers: 0,
            lifts: 0,
        }
    }
}

/// The tip at a point, or at the security height.
fn tip_at(sec: Um, start: Option<Pt3>) -> Tip
    ensures { (job : JobContent) → job.sec ≡ sec → result ≡ tip_at job start }
{
    match start {
        Some(place) => Tip::At(place),
        None => Tip::Height(sec),
    }
}

/// The security height of a job.
pub(crate) fn security(j: &Job) -> Um
    ensures { result ≡ j.now.sec }
{
    j.rule();
    Um::of(j.sec())
}
