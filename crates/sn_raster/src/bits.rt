//! Planes of nodes.
ghost use Rattle.std.specs.Prelude.{◌≡◌, ℕ, ◌+◌, ◌*◌, ◌≤◌, ◌<◌, ◌≤ℤ◌, ◌↔◌, ◌⊎◌, ◌&&◌, ◌||◌, not, false, length, slice_index_or, IsTrue, IfOk};
ghost use Rattle.sn_raster.specs.Grid.{Node, IsInWindow, places};
ghost use Rattle.sn_raster.specs.Plane.{Has, IsEmpty, mark_of};
ghost use Rattle.sn_raster.specs.Neighbours.{HasBesideInRow, HasBesideInColumn};
ghost use Rattle.sn_raster.specs.RowTurns.{IsInRun};

use crate::beside::{keep_beside, keep_rows};
use crate::grid::Grid;
use crate::places::Places;
use sn_geom::{Memory, REACH};
use std::alloc::Global;
use std::marker::Model;

/// A set of nodes of the window of a grid.
#[derive(Drop)]
pub struct Bits {
    grid: Grid,
    marks: Vec<bool>,
}

impl Model for Bits {
    ghost use Rattle.sn_raster.specs.Plane.{Plane, IsPlane};

    ghost Value = { Plane };

    ghost view = { λ bits. record { grid = bits.grid; marks = bits.marks.items } };

    ghost invariant = { λ bits. IsPlane (record { grid = bits.grid; marks = bits.marks.items }) };
}

impl Bits {
    /// The plane without nodes over a grid.
    pub fn new(alloc: Global, g: &Grid) -> Result<Bits, Memory>
        ensures { IfOk result (λ plane. (plane.grid ≡ g.now) × IsEmpty plane) }
    {
        let grid = *g;
        grid.rule();
        let marks = vec![in alloc; false; nodes_of(&grid)]?;
        Ok(Bits { grid, marks })
    }

    /// The grid of the plane.
    pub fn grid(&self) -> Grid
        ensures { result ≡ self.now.grid }
    {
        self.grid
    }

    /// Whether the node in column `i` and row `j` is in the plane.
    pub fn get(&self, i: i32, j: i32) -> bool
        requires { IsInWindow self.now.grid (record { i = i; j = j }) }
        ensures { IsTrue result ↔ Has self.now (record { i = i; j = j }) }
    {
        self.marks[mark(&self.grid, i, j)]
    }

    /// Puts the node in column `i` and row `j` in where `on` is true, and takes it out where it is false.
    pub fn set(&mut self, i: i32, j: i32, on: bool)
        requires { IsInWindow self.old.grid (record { i = i; j = j }) }
        ensures grid { self.new.grid ≡ self.old.grid }
        ensures node { Has self.new (record { i = i; j = j }) ↔ IsTrue on }
        ensures others { (n : Node) → ¬ (n ≡ record { i = i; j = j }) → Has self.new n ↔ Has self.old n }
    {
        let at = mark(&self.grid, i, j);
        self.marks[at] = on;
    }

    /// Puts the nodes of row `j` in these columns in where `on` is true, and takes them out where it is false.
    pub(crate) fn set_run(&mut self, columns: &Places, j: i32, on: bool)
        requires left { self.old.grid.i0 ≤ℤ columns.now.first }
        requires right { columns.now.last ≤ℤ self.old.grid.i1 }
        requires front { self.old.grid.j0 ≤ℤ j }
        requires back { j ≤ℤ self.old.grid.j1 }
        ensures grid { self.new.grid ≡ self.old.grid }
        ensures run { (n : Node) → IsInRun columns.now.first columns.now.last j n → Has self.new n ↔ IsTrue on }
        ensures others { (n : Node) → ¬ IsInRun columns.now.first columns.now.last j n → Has self.new n ↔ Has self.old n }
    {
        if columns.last < columns.first {
            return;
        }
        let from = mark(&self.grid, columns.first, j);
        let end = mark(&self.grid, columns.last, j) + 1;
        set_marks(&mut self.marks, from, end, on);
    }

    /// Makes it the plane of the nodes that are in `a` and in `b`.
    pub fn both(&mut self, a: &Bits, b: &Bits)
        requires first { a.now.grid ≡ self.old.grid }
        requires second { b.now.grid ≡ self.old.grid }
        ensures grid { self.new.grid ≡ self.old.grid }
        ensures nodes { (n : Node) → Has self.new n ↔ (Has a.now n × Has b.now n) }
    {
        common(&mut self.marks, &a.marks, &b.marks);
    }

    /// Takes all nodes out.
    pub fn clear(&mut self)
        ensures grid { self.new.grid ≡ self.old.grid }
        ensures nodes { IsEmpty self.new }
    {
        self.marks.fill(false);
    }

    /// Makes it the plane of the nodes of the window that it lacks.
    pub fn invert(&mut self)
        ensures grid { self.new.grid ≡ self.old.grid }
        ensures nodes { (n : Node) → Has self.new n ↔ (IsInWindow self.old.grid n × ¬ Has self.old n) }
    {
        flip(&mut self.marks);
    }

    /// Puts in the nodes that the other plane has.
    pub fn unite(&mut self, other: &Bits)
        requires { other.now.grid ≡ self.old.grid }
        ensures grid { self.new.grid ≡ self.old.grid }
        ensures nodes { (n : Node) → Has self.new n ↔ (Has self.old n ⊎ Has other.now n) }
    {
        add(&mut self.marks, &other.marks);
    }

    /// Makes it the plane of the nodes that the other plane has with the nodes of the window beside them in their row.
    pub fn keep_beside_in_rows(&mut self, from: &Bits)
        requires { from.now.grid ≡ self.old.grid }
        ensures grid { self.new.grid ≡ self.old.grid }
        ensures nodes { (n : Node) → Has self.new n ↔ (IsInWindow self.old.grid n × HasBesideInRow from.now n) }
    {
        let columns = columns_of(&self.grid);
        let rows = rows_of(&self.grid);
        keep_rows(&mut self.marks, &from.marks, columns, rows);
    }

    /// Makes it the plane of the nodes that the other plane has with the nodes of the window beside them in their column.
    pub fn keep_beside_in_columns(&mut self, from: &Bits)
        requires { from.now.grid ≡ self.old.grid }
        ensures grid { self.new.grid ≡ self.old.grid }
        ensures nodes { (n : Node) → Has self.new n ↔ (IsInWindow self.old.grid n × HasBesideInColumn from.now n) }
    {
        let columns = columns_of(&self.grid);
        keep_beside(&mut self.marks, &from.marks, columns);
    }

    /// Whether the other plane has each node of this one.
    pub fn is_within(&self, other: &Bits) -> bool
        requires { other.now.grid ≡ self.now.grid }
        ensures yes { IsTrue result → (n : Node) → Has self.now n → Has other.now n }
        ensures no { ¬ IsTrue result → (n : Node) × Has self.now n × ¬ Has other.now n }
    {
        are_all_in(&self.marks, &other.marks)
    }

    /// Makes it the plane of the nodes of the other plane.
    pub fn copy(&mut self, other: &Bits)
        requires { other.now.grid ≡ self.old.grid }
        ensures { self.new ≡ other.now }
    {
        self.marks.copy_from_slice(&other.marks);
    }
}

/// How many columns the window has.
fn columns_of(g: &Grid) -> usize
    ensures value { result ≡ places g.now.i0 g.now.i1 }
    ensures size { result ≤ 2 * REACH + 1 }
{
    let columns = Places {
        first: g.i0,
        last: g.i1,
    };
    columns.count() as usize
}

/// How many rows the window has.
fn rows_of(g: &Grid) -> usize
    ensures value { result ≡ places g.now.j0 g.now.j1 }
    ensures size { result ≤ 2 * REACH + 1 }
{
    let rows = Places {
        first: g.j0,
        last: g.j1,
    };
    rows.count() as usize
}

/// How many nodes the window has.
pub(crate) fn nodes_of(g: &Grid) -> usize
    ensures { result ≡ places g.now.i0 g.now.i1 * places g.now.j0 g.now.j1 }
{
    columns_of(g) * rows_of(g)
}

/// Which mark is that of the node in column `i` and row `j`.
pub(crate) fn mark(g: &Grid, i: i32, j: i32) -> usize
    requires { IsInWindow g.now (record { i = i; j = j }) }
    ensures value { result ≡ mark_of g.now (record { i = i; j = j }) }
    ensures size { result < places g.now.i0 g.now.i1 * places g.now.j0 g.now.j1 }
{
    let columns = Places {
        first: g.i0,
        last: g.i1,
    };
    j.abs_diff(g.j0) as usize * columns.count() as usize + i.abs_diff(g.i0) as usize
}

/// Sets the marks from `from` on and before `end` to `on`.
fn set_marks(marks: &mut [bool], from: usize, end: usize, on: bool)
    requires order { from ≤ end }
    requires room { end ≤ length marks.old }
    ensures full { length marks.new ≡ length marks.old }
    ensures between { (k : ℕ) → from ≤ k → k < end → slice_index_or marks.new k false ≡ on }
    ensures before { (k : ℕ) → k < from → slice_index_or marks.new k false ≡ slice_index_or marks.old k false }
    ensures after { (k : ℕ) → end ≤ k → slice_index_or marks.new k false ≡ slice_index_or marks.old k false }
{
    marks[from..end].fill(on);
}

/// Sets each mark to whether both others are set.
fn common(marks: &mut [bool], a: &[bool], b: &[bool])
    requires first { length a.now ≡ length marks.old }
    requires second { length b.now ≡ length marks.old }
    ensures { (k : ℕ) → k < length marks.old
        → slice_index_or marks.new k false ≡ slice_index_or a.now k false && slice_index_or b.now k false }
{
    for k in 0..marks.len() {
        marks[k] = a[k] & b[k];
    }
}

/// Flips each mark.
fn flip(marks: &mut [bool])
    ensures full { length marks.new ≡ length marks.old }
    ensures each { (k : ℕ) → k < length marks.old → slice_index_or marks.new k false ≡ not (slice_index_or marks.old k false) }
{
    for k in 0..marks.len() {
        marks[k] = !marks[k];
    }
}

/// Sets each mark where the other is set.
fn add(marks: &mut [bool], other: &[bool])
    requires { length other.now ≡ length marks.old }
    ensures full { length marks.new ≡ length marks.old }
    ensures each { (k : ℕ) → k < length marks.old
        → slice_index_or marks.new k false ≡ slice_index_or marks.old k false || slice_index_or other.now k false }
{
    for k in 0..marks.len() {
        marks[k] |= other[k];
    }
}

/// Whether each mark that is set is set in the other.
fn are_all_in(marks: &[bool], other: &[bool]) -> bool
    requires { length other.now ≡ length marks.now }
    ensures yes { IsTrue result → (k : ℕ) → k < length marks.now
        → IsTrue (slice_index_or marks.now k false) → IsTrue (slice_index_or other.now k false) }
    ensures no { ¬ IsTrue result → (k : ℕ) × (k < length marks.now)
        × IsTrue (slice_index_or marks.now k false) × ¬ IsTrue (slice_index_or other.now k false) }
{
    for k in 0..marks.len() {
        if marks[k] && !other[k] {
            return false;
        }
    }
    true
}
