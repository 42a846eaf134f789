//! Which points an outline has.
ghost use Rattle.std.specs.Prelude.{◌↔◌, ◌≤◌, ◌≤ℤ◌, IsTrue};
ghost use Rattle.sn_geom.specs.Sweep.{Disc};
ghost use Rattle.sn_outline.specs.Outline.{InRectangle, NearTrail, InShape, InOutline, HasNearWidth};

use crate::outline::{Outline, Shape};
use crate::polygon::in_polygon;
use sn_geom::{Offset, Pt, REACH, Seg, Um, near};

/// Whether `p` is in the outline, its border counted in.
pub fn inside(o: &Outline, p: &Pt) -> bool
    requires { HasNearWidth o.now.shape }
    ensures { IsTrue result ↔ InOutline o.now p.now }
{
    in_shape(&o.shape, p)
}

fn in_shape(shape: &Shape, p: &Pt) -> bool
    requires { HasNearWidth shape.now }
    ensures { IsTrue result ↔ InShape shape.now p.now }
{
    match shape {
        Shape::Rect(low, high) => in_rectangle(low, high, p),
        Shape::Circle(centre, d) => in_circle(centre, *d, p),
        Shape::Polygon(points) => in_polygon(points.as_slice(), p),
        Shape::Trail(points, width) => near_trail(points.as_slice(), *width, p),
    }
}

fn in_rectangle(low: &Pt, high: &Pt, p: &Pt) -> bool
    ensures { IsTrue result ↔ InRectangle low.now high.now p.now }
{
    is_between(low.x, high.x, p.x) && is_between(low.y, high.y, p.y)
}

fn is_between(low: Um, high: Um, value: Um) -> bool
    ensures { IsTrue result ↔ ((low ≤ℤ value) × (value ≤ℤ high)) }
{
    low.get() <= value.get() && value.get() <= high.get()
}

fn in_circle(centre: &Pt, d: u32, p: &Pt) -> bool
    ensures { IsTrue result ↔ Disc d centre.now p.now }
{
    let d = u64::from(d);
    4 * Offset::between(centre, p).length_squared() <= d * d
}

fn near_trail(points: &[Pt], width: u32, p: &Pt) -> bool
    requires { width ≤ REACH }
    ensures { IsTrue result ↔ NearTrail points.now width p.now }
{
    let Some((first, rest)) = points.split_first() else {
        return false;
    };
    let mut from = *first;
    for to in rest {
        let segment = Seg { a: from, b: *to };
        if near(width, &segment, p) {
            return true;
        }
        from = *to;
    }
    false
}
