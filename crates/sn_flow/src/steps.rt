//! The steps of a job, of what all executed workingsteps give.
ghost use Rattle.std.specs.Prelude.{◌≡◌, ◌≤◌, length, map, IfOk, OnOk};
ghost use Rattle.sn_outline.specs.declared.limits.TheConstants.{MOST_STEPS};
ghost use Rattle.sn_flow.specs.Tools.{number_in as place_in};
ghost use Rattle.sn_flow.specs.Steps.{tools_of as tools_used, least_diameter as least_among, corner_among as corner_of, step_among};
ghost use Rattle.sn_flow.specs.Gathered.{used_then, lesser_with};

use sn_feature::StepParts;
use sn_outline::{Numbers, Steps};
use sqlite_items::Items;
use std::alloc::{AllocError, Global};

/// The tools of the steps, in the order of their first uses.
pub(crate) fn tools_of(alloc: Global, parts: &[StepParts]) -> Result<Numbers, AllocError>
    ensures uses { IfOk result (λ tools. tools ≡ tools_used parts.now) }
    ensures few { IfOk result (λ tools. length tools ≤ length parts.now) }
{
    let mut tools = Items::new(alloc);
    for part in parts {
        add_use(&mut tools, part.tool)?;
    }
    Ok(tools)
}

/// Adds a number that was not used before.
fn add_use(used: &mut Numbers, number: u32) -> Result<(), AllocError>
    ensures { OnOk result (used.new ≡ used_then used.old number) }
{
    if !used.as_slice().contains(&number) {
        used.push(number)?;
    }
    Ok(())
}

/// The place of a tool among those of a program, counted from 1.
fn number_in(tools: &[u32], tool: u32) -> u32
    requires { length tools.now ≤ MOST_STEPS }
    ensures { result ≡ place_in tools.now tool }
{
    let mut number = 1;
    for other in tools {
        if *other == tool {
            return number;
        }
        number += 1;
    }
    number
}

/// The corner diameters of the steps.
fn corners_of(alloc: Global, parts: &[StepParts]) -> Result<Vec<u32>, AllocError>
    ensures { IfOk result (λ corners. corners.items ≡ map (corner_of parts.now) parts.now) }
{
    let mut corners = Vec::new(alloc);
    for part in parts {
        let corner = match part.corner {
            Some(corner) => corner,
            None => least_diameter(parts, part.feature),
        };
        corners.push(corner)?;
    }
    Ok(corners)
}

/// The least tool diameter among the steps of a feature, in tenths of a micrometre.
fn least_diameter(parts: &[StepParts], feature: u32) -> u32
    ensures { result ≡ least_among parts.now feature }
{
    let mut least = None;
    for part in parts {
        least = lesser(least, feature, part);
    }
    least.unwrap_or(0)
}

/// The lesser of a diameter and that of a step of the feature.
fn lesser(least: Option<u32>, feature: u32, part: &StepParts) -> Option<u32>
    ensures { result ≡ lesser_with feature least part.now }
{
    if part.feature != feature {
        return least;
    }
    match least {
        Some(d) => Some(d.min(part.body.d)),
        None => Some(part.body.d),
    }
}

/// The steps, each with the number of its tool and its corner diameter.
pub(crate) fn steps_of(
    alloc: Global,
    parts: Vec<StepParts>,
    tools: &[u32],
) -> Result<Steps, AllocError>
    requires tools { tools.now ≡ tools_used parts.items }
    requires few { length tools.now ≤ MOST_STEPS }
    ensures { IfOk result (λ steps. steps ≡ map (step_among parts.items) parts.items) }
{
    let corners = corners_of(alloc, parts.as_slice())?;
    with_corners(alloc, parts, tools, corners.as_slice())
}

/// The steps, each with the number of its tool and its corner diameter, which stands at its place among these.
fn with_corners(
    alloc: Global,
    parts: Vec<StepParts>,
    tools: &[u32],
    corners: &[u32],
) -> Result<Steps, AllocError>
    requires tools { tools.now ≡ tools_used parts.items }
    requires corners { corners.now ≡ map (corner_of parts.items) parts.items }
    requires few { length tools.now ≤ MOST_STEPS }
    ensures { IfOk result (λ steps. steps ≡ map (step_among parts.items) parts.items) }
{
    let mut steps = Items::new(alloc);
    let mut k = 0;
    for part in parts {
        let number = number_in(tools, part.tool);
        steps.push(part.into_step(number, corners[k]))?;
        k += 1;
    }
    Ok(steps)
}
