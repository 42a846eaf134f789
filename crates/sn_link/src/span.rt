//! The columns and the rows of a window that may be near a segment.
ghost use Rattle.std.specs.Prelude.{◌≡◌, ◌↔◌, ◌+◌, ◌*◌, ◌≤◌, ◌<◌, ℕ, pos, ◌+ℤ◌, ◌-ℤ◌, ◌*ℤ◌, ◌≤ℤ◌, unsigned_abs};
ghost use Rattle.std.specs.Int.{int_max, int_min};
ghost use Rattle.sn_geom.specs.Length.{IsLength};
ghost use Rattle.sn_geom.specs.Sweep.{Near};
ghost use Rattle.sn_outline.specs.JobRule.{IsPitch};
ghost use Rattle.sn_raster.specs.Grid.{half_up, last_place, place, places};
ghost use Rattle.sn_raster.specs.Reach.{IsBeside};
ghost use Rattle.sn_open.specs.Window.{columns, rows, node_at};

use sn_geom::{REACH, Seg, Um};
use sn_open::{columns_of, rows_of};
use sn_raster::Grid;
use sn_raster::laws::nearness;

/// Places of an axis of a window, counted from its first: those from one up to another.
#[derive(Clone, Copy)]
pub(crate) struct Span {
    pub(crate) from: u32,
    /// The first place after them.
    pub(crate) to: u32,
}

/// The columns with all nodes of the window that are within half of `d` of the segment.
pub(crate) fn columns_near(g: &Grid, d: u32, way: &Seg) -> Span
    requires { d ≤ REACH }
    ensures within { result.to ≤ columns g.now }
    ensures all { (column row : ℕ) → column < columns g.now → Near d way.now.a way.now.b (place g.now.pitch (node_at g.now column row))
        → (result.from ≤ column) × (column < result.to) }
{
    g.rule();
    nearness();
    places_near(d, way.a.x, way.b.x, g.pitch, g.i0, columns_of(g))
}

/// The rows with all nodes of the window that are within half of `d` of the segment.
pub(crate) fn rows_near(g: &Grid, d: u32, way: &Seg) -> Span
    requires { d ≤ REACH }
    ensures within { result.to ≤ rows g.now }
    ensures all { (column row : ℕ) → row < rows g.now → Near d way.now.a way.now.b (place g.now.pitch (node_at g.now column row))
        → (result.from ≤ row) × (row < result.to) }
{
    g.rule();
    nearness();
    places_near(d, way.a.y, way.b.y, g.pitch, g.j0, rows_of(g))
}

/// Of the `count` places from the first on those between `a` and `b`, or at most half of `d`, rounded up, outside of them.
fn places_near(d: u32, a: Um, b: Um, pitch: u32, first: i32, count: u32) -> Span
    requires diameter { d ≤ REACH }
    requires pitch { IsPitch pitch }
    requires first { IsLength first }
    ensures within { result.to ≤ count }
    ensures all { (k : ℕ) → k < count → IsBeside d a b ((first +ℤ pos k) *ℤ pos pitch) → (result.from ≤ k) × (k < result.to) }
{
    let out = half(d);
    Span {
        from: places_up_to(first, pitch, before(a, b, out)),
        to: places_up_to(first, pitch, after(a, b, out)).min(count),
    }
}

/// Half of a diameter, rounded up.
fn half(d: u32) -> u32
    requires { d ≤ REACH }
    ensures value { result ≡ half_up d }
    ensures size { result < REACH }
{
    d.div_ceil(2)
}

/// The last coordinate before those that are at most `out` less than `a` or `b`.
fn before(a: Um, b: Um, out: u32) -> i32
    requires { out < REACH }
    ensures value { result ≡ int_min a b -ℤ pos (out + 1) }
    ensures size { unsigned_abs result ≤ 2 * REACH }
{
    let least = if b.get() < a.get() { b } else { a };
    least.get() - (out + 1) as i32
}

/// The last coordinate that is at most `out` more than `a` or `b`.
fn after(a: Um, b: Um, out: u32) -> i32
    requires { out < REACH }
    ensures value { result ≡ int_max a b +ℤ pos out }
    ensures size { unsigned_abs result ≤ 2 * REACH }
{
    let greatest = if b.get() < a.get() { a } else { b };
    greatest.get() + out as i32
}

/// How many of the places from the first on have coordinates up to `z`.
fn places_up_to(first: i32, pitch: u32, z: i32) -> u32
    requires first { IsLength first }
    requires pitch { IsPitch pitch }
    requires coordinate { unsigned_abs z ≤ 2 * REACH }
    ensures { (k : ℕ) → k < result ↔ (((first +ℤ pos k) *ℤ pos pitch) ≤ℤ z) }
{
    count(first, last_up_to(z, pitch))
}

/// The last place whose coordinate is not above `z`.
fn last_up_to(z: i32, pitch: u32) -> i32
    requires pitch { IsPitch pitch }
    requires coordinate { unsigned_abs z ≤ 2 * REACH }
    ensures value { result ≡ last_place pitch z }
    ensures size { IsLength result }
{
    z.div_euclid(pitch as i32)
}

/// How many places there are from the first to the last.
fn count(first: i32, last: i32) -> u32
    requires first { IsLength first }
    requires last { IsLength last }
    ensures { result ≡ places first last }
{
    (last + 1 - first).max(0).unsigned_abs()
}
