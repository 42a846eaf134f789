//! The plan of a job.
ghost use Rattle.std.specs.Prelude.{◌≡◌, ◌++◌, IfOk, List, [], Some, Contains, length, slice_get};
ghost use Rattle.std.specs.List.{All};
ghost use Rattle.sn_geom.specs.declared.tip.Tip.TheVariants.{Unknown};
ghost use Rattle.sn_outline.specs.Job.{Job as JobContent};
ghost use Rattle.sn_outline.specs.JobRule.{IsProper};
ghost use Rattle.sn_raster.specs.Grid.{IsGridOf};
ghost use Rattle.sn_raster.specs.Heights.{Pass, StandsFor};
ghost use Rattle.sn_link.specs.Counts.{AreCountedPlans, AreCounts, IsCountedStep, IsRemoved, moves_of, strokes_in};
ghost use Rattle.sn_link.specs.Moves.{AreStraight, tip_after_step, tip_at, tip_for, tool_after};
ghost use Rattle.sn_link.specs.Plan.{IsPlan, IsStepPlan, passes_by, with_moves};
ghost use Rattle.sn_link.specs.Planner.{IsAfter, IsPlannedFrom};
ghost use Rattle.sn_link.specs.Safe.{AreWithin, IsAtSecurity};

use crate::laws::planned_moves;
use crate::material::cut_by_moves;
use crate::moves::{Move, Moves};
use crate::planes::Planes;
use crate::step_plan::{Planned, plan_step, security};
use sn_geom::{Memory, Pt3, Tip};
use sn_open::Stroke;
use sn_outline::{Job, StepJob};
use sn_raster::height_laws::materials;
use sn_raster::{Grid, Heights};
use sqlite_items::Items;
use std::alloc::Global;

/// The moves of a step of a job, and what is counted of them: all counts are 0 where it has no moves.
#[derive(Drop)]
pub struct PlannedStep {
    pub moves: Moves,
    /// How many strokes are in a layer.
    pub strokes: u64,
    pub layers: u64,
    /// How often the tool is lifted in all layers.
    pub lifts: u64,
    /// How many cells the moves take away.
    pub cells: u64,
}

/// What is planned of each step of a job, in the order of the steps, seen as its list.
pub type Plans = Items<PlannedStep>;

/// The moves of each step of a job, over the material that the steps before it leave, and what is counted of them.
pub fn plan(alloc: Global, j: &Job, g: &Grid) -> Result<Plans, Memory>
    requires grid { IsGridOf g.now j.now }
    ensures planned { IfOk result (λ plans. IsPlan j.now (with_moves j.now.steps (moves_of plans))) }
    ensures each { IfOk result (λ plans. length plans ≡ length j.now.steps) }
    ensures within { IfOk result (λ plans. All AreWithin (moves_of plans)) }
    ensures counts { IfOk result (λ plans. AreCountedPlans j.now [] None Unknown j.now.steps plans) }
{
    let mut plans = Plans::new(alloc);
    let steps = j.steps();
    if steps.is_empty() {
        return Ok(plans);
    }
    let mut progress = Progress::start(alloc, j, g, &steps[0])?;
    for (k, step) in steps.iter().enumerate() {
        let planned = progress.plan_step(alloc, j, g, k, step)?;
        plans.push(planned)?;
    }
    Ok(plans)
}

/// What is kept while the steps of a job are planned one after the other.
#[derive(Drop)]
struct Progress {
    /// The material that is left.
    heights: Heights,
    planes: Planes,
    /// The number of the tool in the spindle.
    tool: Option<u32>,
    tip: Tip,
}

impl Progress {
    /// Nothing is cut, and no tool is in the spindle.
    fn start(alloc: Global, j: &Job, g: &Grid, first: &StepJob) -> Result<Progress, Memory>
        requires grid { IsGridOf g.now j.now }
        requires executed { Contains j.now.steps first.now }
        ensures after { IfOk result (IsAfter g.now j.now []) }
        ensures tool { IfOk result (λ progress. progress.tool ≡ None) }
        ensures tip { IfOk result (λ progress. progress.tip ≡ Unknown) }
    {
        j.rule();
        let heights = Heights::raw(alloc, g, j)?;
        let planes = Planes::of(alloc, j, g, first)?;
        Ok(Progress {
            heights,
            planes,
            tool: None,
            tip: Tip::Unknown,
        })
    }

    /// The plan of the step with the index `k`, whose moves then are cut.
    fn plan_step(
        &mut self,
        alloc: Global,
        j: &Job,
        g: &Grid,
        k: usize,
        step: &StepJob,
    ) -> Result<PlannedStep, Memory>
        requires grid { IsGridOf g.now j.now }
        requires executed { slice_get j.now.steps k ≡ Some step.now }
        requires after { (passes : List Pass) × IsAfter g.now j.now passes self.old }
        ensures planned { IfOk result (λ planned. (passes : List Pass) → IsAfter g.now j.now passes self.old
            → IsStepPlan j.now step.now passes (tip_for j.now self.old.tool self.old.tip step.now) planned.moves) }
        ensures counted { IfOk result (λ planned. (passes : List Pass) → IsAfter g.now j.now passes self.old
            → IsCountedStep j.now step.now passes (tip_for j.now self.old.tool self.old.tip step.now) planned) }
        ensures within { IfOk result (λ planned. AreWithin planned.moves) }
        ensures after { IfOk result (λ planned. (passes : List Pass) → IsAfter g.now j.now passes self.old
            → IsAfter g.now j.now (passes ++ passes_by step.now.body (tip_for j.now self.old.tool self.old.tip step.now) planned.moves) self.new) }
        ensures tool { IfOk result (λ planned. self.new.tool ≡ tool_after self.old.tool step.now planned.moves) }
        ensures tip { IfOk result (λ planned. self.new.tip ≡ tip_after_step j.now self.old.tool self.old.tip step.now planned.moves) }
    {
        j.rule();
        planned_moves();
        let tip = self.tip_for(j, step);
        let (planned, strokes) = self.plan_from(alloc, j, g, k, step, tip)?;
        let cells = self.cut(step, &tip, planned.moves.as_slice());
        let Planned {
            moves,
            layers,
            lifts,
        } = planned;
        Ok(PlannedStep {
            moves,
            strokes,
            layers,
            lifts,
            cells,
        })
    }

    /// The tip before the moves of a step.
    fn tip_for(&self, j: &Job, step: &StepJob) -> Tip
        ensures { result ≡ tip_for j.now self.now.tool self.now.tip step.now }
    {
        if self.tool == Some(step.tool) {
            return self.tip;
        }
        Tip::Height(security(j))
    }

    /// The moves of the step with the index `k` from a tip at the security height, and how many strokes they go along in a
    /// layer.
    fn plan_from(
        &mut self,
        alloc: Global,
        j: &Job,
        g: &Grid,
        k: usize,
        step: &StepJob,
        tip: Tip,
    ) -> Result<(Planned, u64), Memory>
        requires grid { IsGridOf g.now j.now }
        requires executed { slice_get j.now.steps k ≡ Some step.now }
        requires after { (passes : List Pass) × IsAfter g.now j.now passes self.old }
        requires above { IsAtSecurity j.now tip }
        ensures planned { IfOk result (λ planned. (passes : List Pass) → IsAfter g.now j.now passes self.old
            → IsPlannedFrom j.now step.now passes tip planned.0 planned.1) }
        ensures within { IfOk result (λ planned. AreWithin planned.0.moves) }
        ensures after { (passes : List Pass) → IsAfter g.now j.now passes self.old → IsAfter g.now j.now passes self.new }
        ensures tool { self.new.tool ≡ self.old.tool }
        ensures tip { self.new.tip ≡ self.old.tip }
    {
        j.rule();
        self.planes.refill(j, g, step);
        let strokes = self.planes.strokes(alloc, g, step)?;
        let allowed = &self.planes.allowed;
        let start = place_of(tip);
        let planned = plan_step(
            alloc,
            j,
            k,
            allowed,
            &self.heights,
            start,
            strokes.as_slice(),
        )?;
        let count = strokes_in(planned.moves.as_slice(), strokes.as_slice());
        Ok((planned, count))
    }

    /// Takes away what the moves of a step from a tip surely cut, and gives how many cells that are. Moves leave the tool of
    /// the step in the spindle, and the tip where they end.
    fn cut(&mut self, step: &StepJob, tip: &Tip, moves: &[Move]) -> u64
        requires proper { IsProper step.now }
        requires straight { AreStraight tip.now moves.now }
        requires left { (job : JobContent) × (passes : List Pass) × StandsFor self.old.heights job passes }
        ensures planes { self.new.planes ≡ self.old.planes }
        ensures grid { self.new.heights.grid ≡ self.old.heights.grid }
        ensures material { (job : JobContent) (passes : List Pass) → StandsFor self.old.heights job passes
            → StandsFor self.new.heights job (passes ++ passes_by step.now.body tip.now moves.now) }
        ensures removed { (job : JobContent) (passes : List Pass) → StandsFor self.old.heights job passes
            → IsRemoved job step.now passes tip.now moves.now result }
        ensures tool { self.new.tool ≡ tool_after self.old.tool step.now moves.now }
        ensures tip { (job : JobContent) → tip.now ≡ tip_for job self.old.tool self.old.tip step.now
            → self.new.tip ≡ tip_after_step job self.old.tool self.old.tip step.now moves.now }
    {
        materials();
        let before = self.heights.left();
        if moves.is_empty() {
            return 0;
        }
        self.tip = cut_by_moves(&mut self.heights, &step.body, *tip, moves);
        self.tool = Some(step.tool);
        before - self.heights.left()
    }
}

/// How many strokes the moves of a step go along in a layer.
fn strokes_in(moves: &[Move], strokes: &[Stroke]) -> u64
    ensures { result ≡ strokes_in moves.now strokes.now }
{
    if moves.is_empty() {
        return 0;
    }
    strokes.len() as u64
}

/// Where a tip at the security height is, if that is known.
fn place_of(tip: Tip) -> Option<Pt3>
    ensures { (job : JobContent) → IsAtSecurity job tip → tip_at job result ≡ tip }
{
    match tip {
        Tip::Unknown => None,
        Tip::Height(_) => None,
        Tip::At(place) => Some(place),
    }
}
