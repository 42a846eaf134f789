//! Which points a polygon has.
ghost use Rattle.std.specs.Prelude.{◌≡◌, ◌↔◌, ◌*◌, ◌≤◌, IsTrue, unsigned_abs};
ghost use Rattle.sn_outline.specs.Polygon.{InPolygon, beside as how_beside, crosses_right as ray_crosses, falls as edge_falls, rises as edge_rises};

use sn_geom::{Offset, Pt, REACH, Seg, Um, near};

/// Whether `p` is on the border of the polygon, or a ray from it crosses the border an odd number of times.
pub(crate) fn in_polygon(points: &[Pt], p: &Pt) -> bool
    ensures { IsTrue result ↔ InPolygon points.now p.now }
{
    let Some(last) = points.last() else {
        return false;
    };
    let mut from = *last;
    let mut crossings: usize = 0;
    for to in points {
        let edge = Seg { a: from, b: *to };
        if near(0, &edge, p) {
            return true;
        }
        if crosses_right(&edge, p) {
            crossings += 1;
        }
        from = *to;
    }
    crossings % 2 == 1
}

/// Whether the edge crosses the ray from `p` to the right.
fn crosses_right(edge: &Seg, p: &Pt) -> bool
    ensures { result ≡ ray_crosses p.now edge.now }
{
    let side = beside(edge, p);
    if rises(p.y, edge) {
        0 < side
    } else {
        falls(p.y, edge) && side < 0
    }
}

/// Whether the edge begins at the height `y` or below it and ends above it.
fn rises(y: Um, edge: &Seg) -> bool
    ensures { result ≡ edge_rises y edge.now }
{
    edge.a.y.get() <= y.get() && y.get() < edge.b.y.get()
}

/// Whether the edge begins above the height `y` and ends at it or below it.
fn falls(y: Um, edge: &Seg) -> bool
    ensures { result ≡ edge_falls y edge.now }
{
    y.get() < edge.a.y.get() && edge.b.y.get() <= y.get()
}

/// Above 0 where `p` lies to the left of the edge's line, below 0 to its right.
fn beside(edge: &Seg, p: &Pt) -> i64
    ensures value { result ≡ how_beside p.now edge.now }
    ensures size { unsigned_abs result ≤ 8 * (REACH * REACH) }
{
    Offset::between(&edge.a, &edge.b).cross(&Offset::between(&edge.a, p))
}
