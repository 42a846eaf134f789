//! The first cell that a move touches and may not.
ghost use Rattle.std.specs.Prelude.{◌≡◌, ◌↔◌, ◌≤◌, ◌<◌, pos, ◌+ℤ◌, ◌-ℤ◌, ◌*ℤ◌, ◌≤ℤ◌, ◌<ℤ◌, IfSome, IsNone, IsTrue};
ghost use Rattle.std.specs.Int.{int_min, int_max};
ghost use Rattle.sn_geom.specs.Sweep.{IsHorizontalOrVertical, Near, plan};
ghost use Rattle.sn_raster.specs.Grid.{IsInWindow, half_up, place};
ghost use Rattle.sn_raster.specs.Heights.{HeightMap, IsFirst, height_of, node_of};
ghost use Rattle.sn_raster.specs.Reach.{IsBeside};
ghost use Rattle.sn_open.specs.Gouged.{IsGougedCell};
ghost use Rattle.sn_open.specs.Planes.{HasIn, IsHigh};
ghost use Rattle.sn_open.specs.Window.{columns, rows, node_at};

use crate::allowed::Allowed;
use crate::window::{columns_of, has_at, place_after, point_at, rows_of};
use sn_geom::laws::touching;
use sn_geom::{Cell, Pt, Pt3, REACH, Seg, Um, near};
use sn_raster::{Grid, Heights};

/// Material that a move may touch.
pub trait Gouges {
    ghost heights: { Self → HeightMap };

    /// The first cell that a tool of diameter `d` touches, its tip moving from `a` to `b`, and that is not one of the
    /// allowed cells: the first by rows, in a row by columns, and over a node by heights.
    fn first_gouged(&self, d: u32, a: &Pt3, b: &Pt3, ok: &Allowed) -> Option<Cell>
        requires grid { ok.now.plane.grid ≡ (heights self.now).grid }
        requires diameter { d ≤ REACH }
        requires not_slanted { IsHorizontalOrVertical a.now b.now }
        ensures some { IfSome result (IsFirst (IsGougedCell (heights self.now) d a.now b.now ok.now)) }
        ensures none { IsNone result → (c : Cell) → ¬ IsGougedCell (heights self.now) d a.now b.now ok.now c };
}

impl Gouges for Heights {
    ghost heights = { λ map. map };

    fn first_gouged(&self, d: u32, a: &Pt3, b: &Pt3, ok: &Allowed) -> Option<Cell> {
        gouged_in_rows(self, &self.grid(), d, a, b, ok)
    }
}

/// The first gouged cell.
fn gouged_in_rows(map: &Heights, g: &Grid, d: u32, a: &Pt3, b: &Pt3, ok: &Allowed) -> Option<Cell>
    requires grid { map.now.grid ≡ g.now }
    requires allowed { ok.now.plane.grid ≡ g.now }
    requires diameter { d ≤ REACH }
    requires not_slanted { IsHorizontalOrVertical a.now b.now }
    ensures some { IfSome result (IsFirst (IsGougedCell map.now d a.now b.now ok.now)) }
    ensures none { IsNone result → (c : Cell) → ¬ IsGougedCell map.now d a.now b.now ok.now c }
{
    if columns_of(g) == 0 {
        return None;
    }
    for row in 0..rows_of(g) {
        let found = gouged_in_row(map, g, d, a, b, ok, row);
        if found.is_some() {
            return found;
        }
    }
    None
}

/// The first gouged cell over the row.
fn gouged_in_row(
    map: &Heights,
    g: &Grid,
    d: u32,
    a: &Pt3,
    b: &Pt3,
    ok: &Allowed,
    row: u32,
) -> Option<Cell>
    requires grid { map.now.grid ≡ g.now }
    requires allowed { ok.now.plane.grid ≡ g.now }
    requires columns { 0 < columns g.now }
    requires row { row < rows g.now }
    requires diameter { d ≤ REACH }
    requires not_slanted { IsHorizontalOrVertical a.now b.now }
    ensures some { IfSome result (IsFirst (λ c. (c.j ≡ g.now.j0 +ℤ pos row) × IsGougedCell map.now d a.now b.now ok.now c)) }
    ensures none { IsNone result → (c : Cell) → c.j ≡ g.now.j0 +ℤ pos row → ¬ IsGougedCell map.now d a.now b.now ok.now c }
{
    touching();
    if !is_row_near(g, d, a, b, row) {
        return None;
    }
    for column in 0..columns_of(g) {
        let found = gouged_over(map, g, d, a, b, ok, column, row);
        if found.is_some() {
            return found;
        }
    }
    None
}

/// The first gouged cell over the node in this column and row.
fn gouged_over(
    map: &Heights,
    g: &Grid,
    d: u32,
    a: &Pt3,
    b: &Pt3,
    ok: &Allowed,
    column: u32,
    row: u32,
) -> Option<Cell>
    requires grid { map.now.grid ≡ g.now }
    requires allowed { ok.now.plane.grid ≡ g.now }
    requires column { column < columns g.now }
    requires row { row < rows g.now }
    requires diameter { d ≤ REACH }
    requires not_slanted { IsHorizontalOrVertical a.now b.now }
    ensures some { IfSome result
        (IsFirst (λ c. (node_of c ≡ node_at g.now column row) × IsGougedCell map.now d a.now b.now ok.now c)) }
    ensures none { IsNone result → (c : Cell) → node_of c ≡ node_at g.now column row
        → ¬ IsGougedCell map.now d a.now b.now ok.now c }
{
    touching();
    if !is_near(g, d, a, b, column, row) {
        return None;
    }
    let cell = lowest_cell(g, a, b, column, row);
    if !is_left(map, &cell) {
        return None;
    }
    if is_in(ok, g, &cell, column, row) {
        return None;
    }
    Some(cell)
}

/// The lowest cell over the node in this column and row that is not below the raw bottom or the move.
fn lowest_cell(g: &Grid, a: &Pt3, b: &Pt3, column: u32, row: u32) -> Cell
    requires column { column < columns g.now }
    requires row { row < rows g.now }
    ensures { result ≡ record {
      i = g.now.i0 +ℤ pos column;
      j = g.now.j0 +ℤ pos row;
      z = int_max g.now.bottom (int_min a.now.z b.now.z);
    } }
{
    g.rule();
    Cell {
        i: place_after(g.i0, column),
        j: place_after(g.j0, row),
        z: lowest(g, a.z, b.z),
    }
}

/// The lowest height that is at least the raw bottom and the lower of the heights `a` and `b`.
fn lowest(g: &Grid, a: Um, b: Um) -> i32
    ensures { result ≡ int_max g.now.bottom (int_min a b) }
{
    g.bottom.max(a.get().min(b.get()))
}

/// Whether the node of the cell has material up to the height of the cell and above.
fn is_left(map: &Heights, c: &Cell) -> bool
    requires { IsInWindow map.now.grid (node_of c.now) }
    ensures { IsTrue result ↔ (c.now.z <ℤ height_of map.now (node_of c.now)) }
{
    c.z < map.at(c.i, c.j)
}

/// Whether the cell, one over the node in this column and row, is one of the cells.
fn is_in(cells: &Allowed, g: &Grid, c: &Cell, column: u32, row: u32) -> bool
    requires grid { cells.now.plane.grid ≡ g.now }
    requires column { column < columns g.now }
    requires row { row < rows g.now }
    requires node { node_of c.now ≡ node_at g.now column row }
    ensures { IsTrue result ↔ HasIn cells.now c.now }
{
    if !has_at(cells.nodes(), g, column, row) {
        return false;
    }
    is_high(cells, c)
}

fn is_high(cells: &Allowed, c: &Cell) -> bool
    ensures { IsTrue result ↔ IsHigh cells.now.lowest c.now.z }
{
    match cells.lowest() {
        Some(low) => low <= c.z,
        None => true,
    }
}

/// Whether the node in this column and row is within half of `d` of the move.
fn is_near(g: &Grid, d: u32, a: &Pt3, b: &Pt3, column: u32, row: u32) -> bool
    requires column { column < columns g.now }
    requires row { row < rows g.now }
    requires diameter { d ≤ REACH }
    ensures { IsTrue result ↔ Near d (plan a.now) (plan b.now) (place g.now.pitch (node_at g.now column row)) }
{
    let at = point_at(g, column, row);
    if !is_beside(d, a.x, b.x, at.x) {
        return false;
    }
    let path = Seg {
        a: plan_of(a),
        b: plan_of(b),
    };
    near(d, &path, &at)
}

/// Whether the row is between the ends of the move, or at most half of `d`, rounded up, outside of them.
fn is_row_near(g: &Grid, d: u32, a: &Pt3, b: &Pt3, row: u32) -> bool
    requires columns { 0 < columns g.now }
    requires row { row < rows g.now }
    requires diameter { d ≤ REACH }
    ensures { IsTrue result ↔ IsBeside d a.now.y b.now.y ((g.now.j0 +ℤ pos row) *ℤ pos g.now.pitch) }
{
    is_beside(d, a.y, b.y, point_at(g, 0, row).y)
}

/// Whether `x` is between `a` and `b`, or at most half of `d`, rounded up, outside of them.
fn is_beside(d: u32, a: Um, b: Um, x: Um) -> bool
    requires { d ≤ REACH }
    ensures { IsTrue result ↔ IsBeside d a b x }
{
    let out = half(d);
    is_from(a, b, out, x) && is_up_to(a, b, out, x)
}

/// Half of a diameter, rounded up.
fn half(d: u32) -> u32
    ensures value { result ≡ half_up d }
    ensures size { result ≤ d }
{
    d.div_ceil(2)
}

fn is_from(a: Um, b: Um, out: u32, x: Um) -> bool
    requires { out ≤ REACH }
    ensures { IsTrue result ↔ ((int_min a b -ℤ pos out) ≤ℤ x) }
{
    below(lower(a, b), out) <= x.get()
}

fn is_up_to(a: Um, b: Um, out: u32, x: Um) -> bool
    requires { out ≤ REACH }
    ensures { IsTrue result ↔ (x ≤ℤ (int_max a b +ℤ pos out)) }
{
    x.get() <= above(higher(a, b), out)
}

fn below(a: Um, out: u32) -> i32
    requires { out ≤ REACH }
    ensures { result ≡ a -ℤ pos out }
{
    a.get() - out as i32
}

fn above(a: Um, out: u32) -> i32
    requires { out ≤ REACH }
    ensures { result ≡ a +ℤ pos out }
{
    a.get() + out as i32
}

fn lower(a: Um, b: Um) -> Um
    ensures { result ≡ int_min a b }
{
    if b.get() < a.get() { b } else { a }
}

fn higher(a: Um, b: Um) -> Um
    ensures { result ≡ int_max a b }
{
    if b.get() < a.get() { a } else { b }
}

fn plan_of(p: &Pt3) -> Pt
    ensures { result ≡ plan p.now }
{
    Pt { x: p.x, y: p.y }
}
