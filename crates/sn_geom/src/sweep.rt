//! The swept tests: which points a moving disc comes near, and which cells a moving tool touches.
ghost use Rattle.std.specs.Prelude.{◌≡◌, ◌↔◌, ◌+◌, ◌*◌, ◌^◌, ◌≤◌, ◌<◌, ◌-ℤ◌, ◌*ℤ◌, ◌≤ℤ◌, IsTrue, IsNone, IfSome};
ghost use Rattle.std.specs.Int.{int_min};
ghost use Rattle.sn_geom.specs.Sweep.{Near, Touch, IsHorizontalOrVertical, IsHalfWidth, plan, square};

use crate::limits::REACH;
use crate::offset::Offset;
use crate::units::{Pt, Pt3, Seg, Um};

/// Whether the distance from `p` to `s`, doubled, is at most `d`.
///
/// All are lengths in tenths of a micrometre.
pub fn near(d: u32, s: &Seg, p: &Pt) -> bool
    requires { d ≤ REACH }
    ensures { IsTrue result ↔ Near d s.now.a s.now.b p.now }
{
    let direction = Offset::between(&s.a, &s.b);
    let from_a = Offset::between(&s.a, p);
    let along = from_a.dot(&direction);
    if along <= 0 {
        return is_within(d, &from_a);
    }
    if along.unsigned_abs() >= direction.length_squared() {
        return is_within(d, &Offset::between(&s.b, p));
    }
    is_beside(d, &direction, &from_a)
}

/// Whether a tool of diameter `d`, its tip moving from `a` to `b`, touches the cell at the place and the height of `p`.
///
/// A cell at the height z is the slab from z to z + 1 at its place. All are lengths in tenths of a micrometre.
pub fn touches(d: u32, a: &Pt3, b: &Pt3, p: &Pt3) -> bool
    requires diameter { d ≤ REACH }
    requires not_slanted { IsHorizontalOrVertical a.now b.now }
    ensures { IsTrue result ↔ Touch d a.now b.now p.now }
{
    let path = Seg {
        a: plan_of(a),
        b: plan_of(b),
    };
    reaches_down(a.z, b.z, p.z) && near(d, &path, &plan_of(p))
}

/// Whether the lower of the heights `a` and `b` is at most `z`.
fn reaches_down(a: Um, b: Um, z: Um) -> bool
    ensures { IsTrue result ↔ (int_min a b ≤ℤ z) }
{
    a.get().min(b.get()) <= z.get()
}

fn plan_of(p: &Pt3) -> Pt
    ensures { result ≡ plan p.now }
{
    Pt { x: p.x, y: p.y }
}

/// Whether the length of `offset`, doubled, is at most `d`.
fn is_within(d: u32, offset: &Offset) -> bool
    requires { d ≤ REACH }
    ensures { IsTrue result ↔ (4 * (square offset.now.x + square offset.now.y) ≤ d * d) }
{
    4 * offset.length_squared() <= squared(d)
}

/// Whether the point at `to_point` from a line in `direction` is within half of `d` of it.
fn is_beside(d: u32, direction: &Offset, to_point: &Offset) -> bool
    requires { d ≤ REACH }
    ensures { IsTrue result
        ↔ (4 * square (to_point.now.x *ℤ direction.now.y -ℤ to_point.now.y *ℤ direction.now.x)
        ≤ d * d * (square direction.now.x + square direction.now.y)) }
{
    4 * to_point.cross_squared(direction) <= product_of_squares(d, direction.length_squared())
}

/// The product of a squared diameter and a squared length.
fn product_of_squares(d: u32, length_squared: u64) -> u128
    requires diameter { d ≤ REACH }
    requires length { length_squared ≤ 8 * (REACH * REACH) }
    ensures value { result ≡ d * d * length_squared }
    ensures size { result < 2 ^ 110 }
{
    u128::from(squared(d)) * u128::from(length_squared)
}

/// The greatest half width of the disc of diameter `d`, on whole numbers, in the row at the distance `dy` from its centre.
///
/// All are lengths in tenths of a micrometre.
pub fn half_width(d: u32, dy: u32) -> Option<u32>
    requires diameter { d ≤ 2 * REACH }
    requires distance { dy ≤ 2 * REACH }
    ensures outside { IsNone result ↔ (d < 2 * dy) }
    ensures greatest { IfSome result (IsHalfWidth d dy) }
{
    if d < 2 * dy {
        return None;
    }
    let rest = squared(d) - squared(2 * dy);
    Some((rest / 4).isqrt() as u32)
}

fn squared(n: u32) -> u64
    ensures { result ≡ n * n }
{
    u64::from(n) * u64::from(n)
}
