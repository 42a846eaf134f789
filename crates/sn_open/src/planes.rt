//! The plane of the raw nodes, and the first node that one plane has and another lacks.
ghost use Rattle.std.specs.Prelude.{◌≡◌, ◌↔◌, ◌<◌, ℕ, IsTrue, IsNone, IfSome};
ghost use Rattle.sn_raster.specs.Grid.{Node, IsInRaw};
ghost use Rattle.sn_raster.specs.Plane.{Has};
ghost use Rattle.sn_open.specs.Window.{columns, rows, node_at};
ghost use Rattle.sn_open.specs.Update.{IsRowPut, IsAlone, IsFirstAlone, IsFirstAloneIn};

use crate::spot::Spot;
use crate::window::{columns_of, has_at, is_raw_at, put_at, rows_of};
use sn_raster::{Bits, Grid};

/// Makes it the plane of the raw nodes.
pub(crate) fn fill_raw(plane: &mut Bits)
    ensures grid { plane.new.grid ≡ plane.old.grid }
    ensures nodes { (n : Node) → Has plane.new n ↔ IsInRaw plane.old.grid n }
{
    let g = plane.grid();
    g.rule();
    for row in 0..rows_of(&g) {
        fill_raw_row(plane, &g, row);
    }
}

fn fill_raw_row(plane: &mut Bits, g: &Grid, row: u32)
    requires grid { plane.old.grid ≡ g.now }
    requires row { row < rows g.now }
    ensures { IsRowPut (λ n. IsInRaw g.now n) g.now row plane.old plane.new (columns g.now) }
{
    for column in 0..columns_of(g) {
        let on = is_raw_at(g, column, row);
        put_at(plane, g, column, row, on);
    }
}

/// Whether the plane has the node in this column and row, and the other has not.
fn has_alone_at(plane: &Bits, other: &Bits, g: &Grid, column: u32, row: u32) -> bool
    requires grid { plane.now.grid ≡ g.now }
    requires other { other.now.grid ≡ g.now }
    requires column { column < columns g.now }
    requires row { row < rows g.now }
    ensures { IsTrue result ↔ (Has plane.now (node_at g.now column row) × ¬ Has other.now (node_at g.now column row)) }
{
    has_at(plane, g, column, row) && !has_at(other, g, column, row)
}

/// The first node of the plane that the other lacks: the first by rows, and in a row by columns.
pub(crate) fn first_alone(plane: &Bits, other: &Bits) -> Option<Spot>
    requires { other.now.grid ≡ plane.now.grid }
    ensures some { IfSome result (λ spot. IsFirstAlone plane.now other.now spot.column spot.row) }
    ensures none { IsNone result → (n : Node) → Has plane.now n → Has other.now n }
{
    let g = plane.grid();
    for row in 0..rows_of(&g) {
        let found = first_alone_in(plane, other, &g, row);
        if found.is_some() {
            return found;
        }
    }
    None
}

/// The first node of the row that the plane has and the other lacks.
fn first_alone_in(plane: &Bits, other: &Bits, g: &Grid, row: u32) -> Option<Spot>
    requires grid { plane.now.grid ≡ g.now }
    requires other { other.now.grid ≡ g.now }
    requires row { row < rows g.now }
    ensures some { IfSome result (λ spot. (spot.row ≡ row) × IsFirstAloneIn plane.now other.now spot.column row) }
    ensures none { IsNone result → (k : ℕ) → k < columns g.now → ¬ IsAlone plane.now other.now (node_at g.now k row) }
{
    for column in 0..columns_of(g) {
        if has_alone_at(plane, other, g, column, row) {
            return Some(Spot { column, row });
        }
    }
    None
}
