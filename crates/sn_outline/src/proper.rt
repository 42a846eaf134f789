//! Whether a step is proper.
ghost use Rattle.std.specs.Prelude.{◌≡◌, ◌↔◌, ◌+◌, ◌*◌, IsTrue};
ghost use Rattle.sn_geom.specs.Length.{IsLength};
ghost use Rattle.sn_outline.specs.Job.{tip_floor as lowest_tip};
ghost use Rattle.sn_outline.specs.JobRule.{IsToolBody, HasAllowances, HasDepths, HasHeights, IsRate, HasSize, IsCircle, IsTrailOf, IsShapeFor, IsProper};

use crate::job::{Bottom, StepJob, Way};
use crate::outline::Shape;
use sn_geom::{Body, LEAST_DIAMETER, MOST_DIAMETER, MOST_RATE, NO_DEPTH, REACH};

/// The lowest height of the tip in the step: its floor with the bottom allowance, and below that the point of the tool
/// where the bottom is conical or through.
pub fn tip_floor(step: &StepJob) -> i64
    ensures { result ≡ lowest_tip step.now }
{
    let floor = i64::from(step.floor) + i64::from(step.under);
    match step.bottom {
        Bottom::Flat => floor,
        Bottom::Conical => floor - i64::from(step.body.e),
        Bottom::Through => floor - i64::from(step.body.e),
    }
}

/// Whether the step is proper: its number, tool, allowances, depths, heights, rates and outline are within their limits,
/// and its shape is one for its way.
pub fn is_proper(step: &StepJob) -> bool
    ensures { IsTrue result ↔ IsProper step.now }
{
    if step.ws < 1 || !is_tool_body(&step.body) || !has_allowances(step) || !has_depths(step) {
        return false;
    }
    has_heights(step)
        && is_rate(step.feed)
        && is_rate(step.speed)
        && has_size(&step.outline.shape)
        && is_shape_for(step.way, step.body.d, step.side, &step.outline.shape)
}

fn is_tool_body(body: &Body) -> bool
    ensures { IsTrue result ↔ IsToolBody body.now }
{
    LEAST_DIAMETER <= body.d
        && body.d <= MOST_DIAMETER
        && 2 * u64::from(body.e) <= u64::from(body.d) + 1
}

fn has_allowances(step: &StepJob) -> bool
    ensures { IsTrue result ↔ HasAllowances step.now }
{
    step.side <= REACH && step.under <= REACH && step.corner <= 2 * REACH
}

fn has_depths(step: &StepJob) -> bool
    ensures { IsTrue result ↔ HasDepths step.now }
{
    1 <= step.axial && step.axial <= NO_DEPTH && step.radial <= step.body.d
}

fn has_heights(step: &StepJob) -> bool
    ensures { IsTrue result ↔ HasHeights step.now }
{
    step.floor <= step.top
        && step.top.unsigned_abs() <= REACH
        && step.floor.unsigned_abs() <= REACH
        && has_length_tip(step)
}

fn has_length_tip(step: &StepJob) -> bool
    ensures { IsTrue result ↔ IsLength (lowest_tip step.now) }
{
    tip_floor(step).unsigned_abs() <= u64::from(REACH)
}

fn is_rate(rate: u32) -> bool
    ensures { IsTrue result ↔ IsRate rate }
{
    1 <= rate && rate <= MOST_RATE
}

fn has_size(shape: &Shape) -> bool
    ensures { IsTrue result ↔ HasSize shape.now }
{
    match shape {
        Shape::Rect(_, _) => true,
        Shape::Circle(_, d) => *d <= REACH,
        Shape::Polygon(_) => true,
        Shape::Trail(_, width) => *width <= REACH,
    }
}

fn is_shape_for(way: Way, d: u32, side: u32, shape: &Shape) -> bool
    ensures { IsTrue result ↔ IsShapeFor way (d + 2 * side) shape.now }
{
    match way {
        Way::Clear => true,
        Way::Trail => is_trail_of(u64::from(d) + 2 * u64::from(side), shape),
        Way::Drill => is_circle(shape),
    }
}

fn is_trail_of(w: u64, shape: &Shape) -> bool
    ensures { IsTrue result ↔ IsTrailOf w shape.now }
{
    match shape {
        Shape::Rect(_, _) => false,
        Shape::Circle(_, _) => false,
        Shape::Polygon(_) => false,
        Shape::Trail(points, width) => 2 <= points.len() && u64::from(*width) == w,
    }
}

fn is_circle(shape: &Shape) -> bool
    ensures { IsTrue result ↔ IsCircle shape.now }
{
    matches!(shape, Shape::Circle(_, _))
}
