//! The strokes of a step that follows the trail of its outline.
ghost use Rattle.std.specs.Prelude.{◌≡◌, ℕ, IfOk};
ghost use Rattle.sn_outline.specs.JobRule.{IsProper, IsTrailOf};
ghost use Rattle.sn_outline.specs.declared.job.Way.TheVariants as way;
ghost use Rattle.sn_fit.specs.Fit.{strokes_along, strokes_of_trail};

use sn_geom::{Memory, Pt};
use sn_open::{Stroke, Strokes};
use sn_outline::{Shape, StepJob};
use std::alloc::Global;

/// The strokes of a step that follows a trail: the segments of the trail in order.
pub fn trail_strokes(alloc: Global, s: &StepJob) -> Result<Strokes, Memory>
    requires proper { IsProper s.now }
    requires followed { s.now.way ≡ way.Trail }
    ensures { IfOk result (λ strokes. strokes ≡ strokes_of_trail s.now.outline.shape) }
{
    match &s.outline.shape {
        Shape::Rect(_, _) => unreachable!(),
        Shape::Circle(_, _) => unreachable!(),
        Shape::Polygon(_) => unreachable!(),
        Shape::Trail(points, _) => {
            let strokes = strokes_along(alloc, points.as_slice())?;
            Ok(strokes)
        }
    }
}

/// The strokes from each of the points to the next.
fn strokes_along(alloc: Global, points: &[Pt]) -> Result<Strokes, Memory>
    ensures { IfOk result (λ strokes. strokes ≡ strokes_along points.now) }
{
    let mut strokes = Strokes::new(alloc);
    let Some((first, rest)) = points.split_first() else {
        return Ok(strokes);
    };
    let mut from = *first;
    for to in rest {
        strokes.push(Stroke { from, to: *to })?;
        from = *to;
    }
    Ok(strokes)
}
