//! The columns and the rows of a window: all, those that may be near a segment, and those between two coordinates.
ghost use Rattle.std.specs.Prelude.{◌≡◌, ◌↔◌, ◌≤◌, ℤ, pos, ◌*ℤ◌, ◌≤ℤ◌};
ghost use Rattle.std.specs.Int.{int_min, int_max};
ghost use Rattle.sn_geom.specs.Length.{IsLength};
ghost use Rattle.sn_geom.specs.Sweep.{Near};
ghost use Rattle.sn_outline.specs.JobRule.{IsPitch};
ghost use Rattle.sn_raster.specs.Grid.{Node, IsInWindow, place};
ghost use Rattle.sn_raster.specs.Reach.{IsBeside};

use crate::grid::{Grid, half};
use crate::places::Places;
use sn_geom::{Pt, REACH, Um};

/// The columns of the window with all of its nodes that are within half of `d` of the segment from `a` to `b`.
pub(crate) fn columns_near(g: &Grid, d: u32, a: &Pt, b: &Pt) -> Places
    requires { d ≤ REACH }
    ensures first { g.now.i0 ≤ℤ result.first }
    ensures last { result.last ≤ℤ g.now.i1 }
    ensures all { (n : Node) → IsInWindow g.now n → Near d a.now b.now (place g.now.pitch n)
        → (result.first ≤ℤ n.i) × (n.i ≤ℤ result.last) }
{
    g.rule();
    places_beside(d, a.x, b.x, g.pitch, g.i0, g.i1)
}

/// The rows of the window with all of its nodes that are within half of `d` of the segment from `a` to `b`.
pub(crate) fn rows_near(g: &Grid, d: u32, a: &Pt, b: &Pt) -> Places
    requires { d ≤ REACH }
    ensures first { g.now.j0 ≤ℤ result.first }
    ensures last { result.last ≤ℤ g.now.j1 }
    ensures all { (n : Node) → IsInWindow g.now n → Near d a.now b.now (place g.now.pitch n)
        → (result.first ≤ℤ n.j) × (n.j ≤ℤ result.last) }
{
    g.rule();
    places_beside(d, a.y, b.y, g.pitch, g.j0, g.j1)
}

/// All columns of the window.
pub(crate) fn all_columns(g: &Grid) -> Places
    ensures first { result.first ≡ g.now.i0 }
    ensures last { result.last ≡ g.now.i1 }
{
    g.rule();
    Places {
        first: g.i0,
        last: g.i1,
    }
}

/// All rows of the window.
pub(crate) fn all_rows(g: &Grid) -> Places
    ensures first { result.first ≡ g.now.j0 }
    ensures last { result.last ≡ g.now.j1 }
{
    g.rule();
    Places {
        first: g.j0,
        last: g.j1,
    }
}

/// The columns of the window from the coordinate `low` to `high`.
pub(crate) fn columns_within(g: &Grid, low: Um, high: Um) -> Places
    ensures first { g.now.i0 ≤ℤ result.first }
    ensures last { result.last ≤ℤ g.now.i1 }
    ensures all { (i : ℤ) → g.now.i0 ≤ℤ i → i ≤ℤ g.now.i1
        → ((result.first ≤ℤ i) × (i ≤ℤ result.last)) ↔ ((low ≤ℤ (i *ℤ pos g.now.pitch)) × ((i *ℤ pos g.now.pitch) ≤ℤ high)) }
{
    g.rule();
    places_within(low, high, g.pitch, g.i0, g.i1)
}

/// The rows of the window from the coordinate `low` to `high`.
pub(crate) fn rows_within(g: &Grid, low: Um, high: Um) -> Places
    ensures first { g.now.j0 ≤ℤ result.first }
    ensures last { result.last ≤ℤ g.now.j1 }
    ensures all { (j : ℤ) → g.now.j0 ≤ℤ j → j ≤ℤ g.now.j1
        → ((result.first ≤ℤ j) × (j ≤ℤ result.last)) ↔ ((low ≤ℤ (j *ℤ pos g.now.pitch)) × ((j *ℤ pos g.now.pitch) ≤ℤ high)) }
{
    g.rule();
    places_within(low, high, g.pitch, g.j0, g.j1)
}

/// Of the places from `first` to `last` those whose coordinates are from `low` to `high`.
fn places_within(low: Um, high: Um, pitch: u32, first: i32, last: i32) -> Places
    requires pitch { IsPitch pitch }
    requires first { IsLength first }
    requires last { IsLength last }
    ensures first { first ≤ℤ result.first }
    ensures last { result.last ≤ℤ last }
    ensures all { (k : ℤ) → first ≤ℤ k → k ≤ℤ last
        → ((result.first ≤ℤ k) × (k ≤ℤ result.last)) ↔ ((low ≤ℤ (k *ℤ pos pitch)) × ((k *ℤ pos pitch) ≤ℤ high)) }
{
    Places::between(low, high, pitch).cut_to(first, last)
}

/// Of the places from `first` to `last` those between `a` and `b`, or at most half of `d` outside of them.
fn places_beside(d: u32, a: Um, b: Um, pitch: u32, first: i32, last: i32) -> Places
    requires diameter { d ≤ REACH }
    requires pitch { IsPitch pitch }
    requires first { IsLength first }
    requires last { IsLength last }
    ensures first { first ≤ℤ result.first }
    ensures last { result.last ≤ℤ last }
    ensures all { (k : ℤ) → first ≤ℤ k → k ≤ℤ last → IsBeside d a b (k *ℤ pos pitch)
        → (result.first ≤ℤ k) × (k ≤ℤ result.last) }
{
    Places::grown(lower(a, b), higher(a, b), half(d), pitch).cut_to(first, last)
}

fn lower(a: Um, b: Um) -> Um
    ensures { result ≡ int_min a b }
{
    if b.get() < a.get() { b } else { a }
}

fn higher(a: Um, b: Um) -> Um
    ensures { result ≡ int_max a b }
{
    if b.get() < a.get() { a } else { b }
}
