//! Whether steps keep the rule of a job.
ghost use Rattle.std.specs.Prelude.{◌≡◌, ◌↔◌, ◌≤◌, ◌==◌, IsTrue, IfSome};
ghost use Rattle.std.specs.Option.{option_copied};
ghost use Rattle.std.specs.List.{All, Any, find};
ghost use Rattle.sn_outline.specs.JobRule.{IsProper, IsPitch, AreCorners, AreNumbered, HaveOneBody, HaveOneFeature, IsSameFeature, KeepRule};

use crate::job::StepJob;
use crate::limits::MOST_STEPS;
use crate::proper::is_proper;
use crate::same::is_same_feature;
use sn_geom::{LEAST_PITCH, MOST_PITCH, Pt3};

/// Whether steps with `tools` tools keep the part of the rule of jobs that speaks of them.
pub(crate) fn keep_rule(steps: &[StepJob], tools: usize) -> bool
    ensures { IsTrue result ↔ KeepRule steps.now tools }
{
    if steps.len() > MOST_STEPS {
        return false;
    }
    if !are_numbered(steps, tools) {
        return false;
    }
    if !have_one_body(steps) {
        return false;
    }
    if !have_one_feature(steps) {
        return false;
    }
    are_proper(steps)
}

pub(crate) fn is_pitch(pitch: u32) -> bool
    ensures { IsTrue result ↔ IsPitch pitch }
{
    LEAST_PITCH <= pitch && pitch <= MOST_PITCH
}

pub(crate) fn are_corners(low: &Pt3, high: &Pt3) -> bool
    ensures { IsTrue result ↔ AreCorners low.now high.now }
{
    low.x.get() < high.x.get() && low.y.get() < high.y.get() && low.z.get() < high.z.get()
}

fn are_proper(steps: &[StepJob]) -> bool
    ensures { IsTrue result ↔ All IsProper steps.now }
{
    for step in steps {
        if !is_proper(step) {
            return false;
        }
    }
    true
}

/// Whether the numbers of the tools are those from 1 to `count`.
fn are_numbered(steps: &[StepJob], count: usize) -> bool
    ensures { IsTrue result ↔ AreNumbered steps.now count }
{
    if !are_at_most(steps, count) {
        return false;
    }
    for before in 0..count {
        if !uses_tool(steps, before + 1) {
            return false;
        }
    }
    true
}

/// Whether each tool has a number from 1 to `count`.
fn are_at_most(steps: &[StepJob], count: usize) -> bool
    ensures { IsTrue result ↔ All (λ s. (1 ≤ s.tool) × (s.tool ≤ count)) steps.now }
{
    for step in steps {
        if step.tool < 1 || step.tool as usize > count {
            return false;
        }
    }
    true
}

/// Whether a step has the tool of this number.
fn uses_tool(steps: &[StepJob], number: usize) -> bool
    ensures { IsTrue result ↔ Any (λ s. s.tool ≡ number) steps.now }
{
    for step in steps {
        if step.tool as usize == number {
            return true;
        }
    }
    false
}

/// Whether steps of one tool have one body.
fn have_one_body(steps: &[StepJob]) -> bool
    ensures { IsTrue result ↔ HaveOneBody steps.now }
{
    for step in steps {
        if !has_body_of_first(steps, step) {
            return false;
        }
    }
    true
}

/// Whether the step has the body of the first step with its tool.
fn has_body_of_first(steps: &[StepJob], step: &StepJob) -> bool
    ensures { IsTrue result
        ↔ IfSome (find (λ s. s.tool == step.now.tool) steps.now) (λ s. s.body ≡ step.now.body) }
{
    match first_with_tool(steps, step.tool) {
        Some(first) => first.body == step.body,
        None => true,
    }
}

fn first_with_tool(steps: &[StepJob], tool: u32) -> Option<&StepJob>
    ensures { option_copied result ≡ find (λ s. s.tool == tool) steps.now }
{
    steps.iter().find(|step| step.tool == tool)
}

/// Whether steps of one feature have one outline, top, floor, bottom and corner.
fn have_one_feature(steps: &[StepJob]) -> bool
    ensures { IsTrue result ↔ HaveOneFeature steps.now }
{
    for step in steps {
        if !is_feature_of_first(steps, step) {
            return false;
        }
    }
    true
}

/// Whether the step has the outline, the top, the floor, the bottom and the corner of the first step with its feature.
fn is_feature_of_first(steps: &[StepJob], step: &StepJob) -> bool
    ensures { IsTrue result
        ↔ IfSome (find (λ s. s.feature == step.now.feature) steps.now) (λ s. IsSameFeature s step.now) }
{
    match first_with_feature(steps, step.feature) {
        Some(first) => is_same_feature(first, step),
        None => true,
    }
}

fn first_with_feature(steps: &[StepJob], feature: u32) -> Option<&StepJob>
    ensures { option_copied result ≡ find (λ s. s.feature == feature) steps.now }
{
    steps.iter().find(|step| step.feature == feature)
}
