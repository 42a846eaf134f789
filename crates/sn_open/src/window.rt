//! The window of a grid by columns and rows, counted from its first.
ghost use Rattle.std.specs.Prelude.{◌≡◌, ◌↔◌, ◌+◌, ◌*◌, ◌≤◌, ◌<◌, pos, ◌+ℤ◌, ◌*ℤ◌, ◌≤ℤ◌, IsTrue};
ghost use Rattle.sn_geom.specs.Length.{IsLength};
ghost use Rattle.sn_outline.specs.JobRule.{IsPitch};
ghost use Rattle.sn_raster.specs.Grid.{Node, IsInRaw, place, places};
ghost use Rattle.sn_raster.specs.Plane.{Has, IsEmpty};
ghost use Rattle.sn_open.specs.Window.{columns, rows, node_at, IsMarked};

use sn_geom::{Pt, REACH, Um};
use sn_raster::{Bits, Grid};

/// How many columns the window has.
pub fn columns_of(g: &Grid) -> u32
    ensures value { result ≡ columns g.now }
    ensures size { result ≤ 2 * REACH + 1 }
{
    g.rule();
    count(g.i0, g.i1)
}

/// How many rows the window has.
pub fn rows_of(g: &Grid) -> u32
    ensures value { result ≡ rows g.now }
    ensures size { result ≤ 2 * REACH + 1 }
{
    g.rule();
    count(g.j0, g.j1)
}

/// How many places there are from the first to the last.
fn count(first: i32, last: i32) -> u32
    requires first { IsLength first }
    requires last { IsLength last }
    ensures value { result ≡ places first last }
    ensures size { result ≤ 2 * REACH + 1 }
{
    (last + 1 - first).max(0).unsigned_abs()
}

/// The place that comes `k` after the first.
pub(crate) fn place_after(first: i32, k: u32) -> i32
    requires first { IsLength first }
    requires count { k ≤ 2 * REACH }
    ensures { result ≡ first +ℤ pos k }
{
    first + k as i32
}

/// Whether the plane has the node in this column and row.
pub fn has_at(plane: &Bits, g: &Grid, column: u32, row: u32) -> bool
    requires grid { plane.now.grid ≡ g.now }
    requires column { column < columns g.now }
    requires row { row < rows g.now }
    ensures { IsTrue result ↔ Has plane.now (node_at g.now column row) }
{
    g.rule();
    plane.get(place_after(g.i0, column), place_after(g.j0, row))
}

/// Puts the node in this column and row in where `on` is true, and takes it out where it is false.
pub fn put_at(plane: &mut Bits, g: &Grid, column: u32, row: u32, on: bool)
    requires grid { plane.old.grid ≡ g.now }
    requires column { column < columns g.now }
    requires row { row < rows g.now }
    ensures grid { plane.new.grid ≡ g.now }
    ensures node { Has plane.new (node_at g.now column row) ↔ IsTrue on }
    ensures others { (n : Node) → ¬ (n ≡ node_at g.now column row) → Has plane.new n ↔ Has plane.old n }
{
    g.rule();
    plane.set(place_after(g.i0, column), place_after(g.j0, row), on);
}

/// Whether the plane has the node in this column and row where `on` is true, and lacks it where it is false.
pub(crate) fn is_marked_at(plane: &Bits, on: bool, g: &Grid, column: u32, row: u32) -> bool
    requires grid { plane.now.grid ≡ g.now }
    requires column { column < columns g.now }
    requires row { row < rows g.now }
    ensures { IsTrue result ↔ IsMarked plane.now on (node_at g.now column row) }
{
    has_at(plane, g, column, row) == on
}

/// Takes all nodes out.
pub(crate) fn clear(plane: &mut Bits, g: &Grid)
    requires { plane.old.grid ≡ g.now }
    ensures grid { plane.new.grid ≡ g.now }
    ensures nodes { IsEmpty plane.new }
{
    plane.clear();
}

/// Whether the node in this column and row is a raw node.
pub(crate) fn is_raw_at(g: &Grid, column: u32, row: u32) -> bool
    requires column { column < columns g.now }
    requires row { row < rows g.now }
    ensures { IsTrue result ↔ IsInRaw g.now (node_at g.now column row) }
{
    g.rule();
    let across = is_between(g.ri0, g.i0, column, g.ri1);
    let along = is_between(g.rj0, g.j0, row, g.rj1);
    across && along
}

/// Whether the place that comes `k` after `from` is one from the first to the last.
fn is_between(first: i32, from: i32, k: u32, last: i32) -> bool
    requires from { IsLength from }
    requires count { k ≤ 2 * REACH }
    ensures { IsTrue result ↔ ((first ≤ℤ (from +ℤ pos k)) × ((from +ℤ pos k) ≤ℤ last)) }
{
    let place = place_after(from, k);
    first <= place && place <= last
}

/// Where the node in this column and row is.
pub(crate) fn point_at(g: &Grid, column: u32, row: u32) -> Pt
    requires column { column < columns g.now }
    requires row { row < rows g.now }
    ensures { result ≡ place g.now.pitch (node_at g.now column row) }
{
    g.rule();
    Pt {
        x: coordinate_of(g.i0, column, g.pitch),
        y: coordinate_of(g.j0, row, g.pitch),
    }
}

/// The coordinate of the place that comes `k` after the first.
fn coordinate_of(first: i32, k: u32, pitch: u32) -> Um
    requires first { IsLength first }
    requires count { k ≤ 2 * REACH }
    requires pitch { IsPitch pitch }
    requires range { IsLength ((first +ℤ pos k) *ℤ pos pitch) }
    ensures { result ≡ (first +ℤ pos k) *ℤ pos pitch }
{
    Um::of(place_after(first, k) * pitch as i32)
}
