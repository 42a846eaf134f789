//! Whether two outlines are one, and two steps cut one feature.
ghost use Rattle.std.specs.Prelude.{◌≡◌, ◌↔◌, IsTrue};
ghost use Rattle.sn_outline.specs.JobRule.{IsSameFeature};

use crate::job::StepJob;
use crate::outline::{Outline, Shape};
use sn_geom::Pt;

/// Whether the steps have one outline, top, floor, bottom and corner.
pub(crate) fn is_same_feature(s: &StepJob, t: &StepJob) -> bool
    ensures { IsTrue result ↔ IsSameFeature s.now t.now }
{
    s.top == t.top
        && s.floor == t.floor
        && s.bottom == t.bottom
        && s.corner == t.corner
        && is_same_outline(&s.outline, &t.outline)
}

fn is_same_outline(a: &Outline, b: &Outline) -> bool
    ensures { IsTrue result ↔ (a.now ≡ b.now) }
{
    is_same_shape(&a.shape, &b.shape) && are_same_shapes(a.islands.as_slice(), b.islands.as_slice())
}

fn is_same_shape(a: &Shape, b: &Shape) -> bool
    ensures { IsTrue result ↔ (a.now ≡ b.now) }
{
    match (a, b) {
        (Shape::Rect(low, high), Shape::Rect(low_b, high_b)) => *low == *low_b && *high == *high_b,
        (Shape::Circle(centre, d), Shape::Circle(centre_b, d_b)) => *centre == *centre_b
            && *d == *d_b,
        (Shape::Polygon(points), Shape::Polygon(points_b)) => are_same_points(
            points.as_slice(),
            points_b.as_slice(),
        ),
        (Shape::Trail(points, width), Shape::Trail(points_b, width_b)) => {
            are_same_points(points.as_slice(), points_b.as_slice()) && *width == *width_b
        }
        _ => false,
    }
}

fn are_same_points(a: &[Pt], b: &[Pt]) -> bool
    ensures { IsTrue result ↔ (a.now ≡ b.now) }
{
    if a.len() != b.len() {
        return false;
    }
    for (i, p) in a.iter().enumerate() {
        if *p != b[i] {
            return false;
        }
    }
    true
}

fn are_same_shapes(a: &[Shape], b: &[Shape]) -> bool
    ensures { IsTrue result ↔ (a.now ≡ b.now) }
{
    if a.len() != b.len() {
        return false;
    }
    for (i, shape) in a.iter().enumerate() {
        if !is_same_shape(shape, &b[i]) {
            return false;
        }
    }
    true
}
