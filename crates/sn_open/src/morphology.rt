//! Erosion and dilation of planes of nodes.
ghost use Rattle.std.specs.Prelude.{◌≡◌, ◌↔◌, ◌+◌, ◌*◌, ◌≤◌, ◌<◌, length, IsTrue, IfOk};
ghost use Rattle.sn_raster.specs.Grid.{Node, IsInWindow, IsInRaw};
ghost use Rattle.sn_raster.specs.Plane.{Has};
ghost use Rattle.sn_open.specs.Window.{columns, rows as rows_in};
ghost use Rattle.sn_open.specs.Morphology.{HasDisc, IsNearOne, HasBlock};

use crate::planes::fill_raw;
use crate::spread::spread;
use crate::widths::set_disc_widths;
use crate::window::{columns_of, rows_of};
use sn_geom::{Memory, REACH};
use sn_raster::{Bits, Grid};
use std::alloc::Global;
use std::marker::Model;

/// What erosions and dilations over a grid need: its raw nodes, and room for a plane, a number a column and a number a row.
#[derive(Drop)]
pub(crate) struct Room {
    raw: Bits,
    spare: Bits,
    gaps: Vec<u32>,
    widths: Vec<u32>,
}

impl Model for Room {
    ghost use Rattle.std.specs.Prelude.{◌≡◌, ◌↔◌, ◌+◌, length};
    ghost use Rattle.sn_raster.specs.Grid.{Grid as GridContent, Node, IsInRaw};
    ghost use Rattle.sn_raster.specs.Plane.{Has};
    ghost use Rattle.sn_open.specs.Window.{columns, rows};

    ghost Value = { GridContent };

    ghost view = { λ room. room.raw.grid };

    ghost invariant = { λ room. (room.spare.grid ≡ room.raw.grid)
        × (length room.gaps.items ≡ columns room.raw.grid)
        × (length room.widths.items ≡ rows room.raw.grid + 1)
        × ((n : Node) → Has room.raw n ↔ IsInRaw room.raw.grid n) };
}

impl Room {
    /// Room for planes of a grid.
    pub fn new(alloc: Global, g: &Grid) -> Result<Room, Memory>
        ensures { IfOk result (λ room. room ≡ g.now) }
    {
        let mut raw = Bits::new(alloc, g)?;
        fill_raw(&mut raw);
        let spare = Bits::new(alloc, g)?;
        let gaps = vec![in alloc; 0; columns_of(g) as usize]?;
        let widths = vec![in alloc; 0; rows_of(g) as usize + 1]?;
        Ok(Room {
            raw,
            spare,
            gaps,
            widths,
        })
    }

    /// Makes it the plane of the nodes whose disc of diameter `d` is all in the other plane, as far as the window goes.
    pub fn erode(&mut self, d: u32, from: &Bits, to: &mut Bits)
        requires diameter { d ≤ 2 * REACH }
        requires from { from.now.grid ≡ self.old }
        requires to { to.old.grid ≡ self.old }
        ensures room { self.new ≡ self.old }
        ensures grid { to.new.grid ≡ self.old }
        ensures nodes { (n : Node) → Has to.new n ↔ (IsInWindow self.old n × HasDisc from.now d n) }
    {
        erode_in(&mut self.widths, &mut self.gaps, d, from, to);
    }

    /// Makes it the plane of the nodes of the window in discs of diameter `d` about nodes of the other plane.
    pub fn dilate(&mut self, d: u32, from: &Bits, to: &mut Bits)
        requires diameter { d ≤ 2 * REACH }
        requires from { from.now.grid ≡ self.old }
        requires to { to.old.grid ≡ self.old }
        ensures room { self.new ≡ self.old }
        ensures grid { to.new.grid ≡ self.old }
        ensures nodes { (n : Node) → Has to.new n ↔ (IsInWindow self.old n × IsNearOne from.now d n) }
    {
        dilate_in(&mut self.widths, &mut self.gaps, d, from, to);
    }

    /// Makes it the plane of the nodes of the window whose five by five block is all in the other plane, as far as the
    /// window goes.
    pub fn keep_blocks(&mut self, from: &Bits, to: &mut Bits)
        requires from { from.now.grid ≡ self.old }
        requires to { to.old.grid ≡ self.old }
        ensures room { self.new ≡ self.old }
        ensures grid { to.new.grid ≡ self.old }
        ensures nodes { (n : Node) → Has to.new n ↔ (IsInWindow self.old n × HasBlock from.now n) }
    {
        keep_blocks_in(&mut self.spare, from, to);
    }

    /// Makes it the plane of the raw nodes that the other plane has.
    pub fn keep_raw(&self, from: &Bits, to: &mut Bits)
        requires from { from.now.grid ≡ self.now }
        requires to { to.old.grid ≡ self.now }
        ensures grid { to.new.grid ≡ self.now }
        ensures nodes { (n : Node) → Has to.new n ↔ (Has from.now n × IsInRaw self.now n) }
    {
        to.both(from, &self.raw);
    }
}

fn erode_in(widths: &mut [u32], gaps: &mut [u32], d: u32, from: &Bits, to: &mut Bits)
    requires diameter { d ≤ 2 * REACH }
    requires grid { to.old.grid ≡ from.now.grid }
    requires widths { length widths.old ≡ rows_in from.now.grid + 1 }
    requires gaps { length gaps.old ≡ columns from.now.grid }
    ensures grid { to.new.grid ≡ from.now.grid }
    ensures nodes { (n : Node) → Has to.new n ↔ (IsInWindow from.now.grid n × HasDisc from.now d n) }
{
    let g = from.grid();
    g.rule();
    if has_no_other(d, &g) {
        to.copy(from);
        return;
    }
    set_disc_widths(widths, d, g.pitch, rows_of(&g));
    spread(from, false, widths, gaps, to);
    to.invert();
}

fn dilate_in(widths: &mut [u32], gaps: &mut [u32], d: u32, from: &Bits, to: &mut Bits)
    requires diameter { d ≤ 2 * REACH }
    requires grid { to.old.grid ≡ from.now.grid }
    requires widths { length widths.old ≡ rows_in from.now.grid + 1 }
    requires gaps { length gaps.old ≡ columns from.now.grid }
    ensures grid { to.new.grid ≡ from.now.grid }
    ensures nodes { (n : Node) → Has to.new n ↔ (IsInWindow from.now.grid n × IsNearOne from.now d n) }
{
    let g = from.grid();
    g.rule();
    if has_no_other(d, &g) {
        to.copy(from);
        return;
    }
    set_disc_widths(widths, d, g.pitch, rows_of(&g));
    spread(from, true, widths, gaps, to);
}

/// Whether a disc of diameter `d` about a node has no other node.
fn has_no_other(d: u32, g: &Grid) -> bool
    ensures { IsTrue result ↔ d < 2 * g.now.pitch }
{
    g.rule();
    d < 2 * g.pitch
}

fn keep_blocks_in(spare: &mut Bits, from: &Bits, to: &mut Bits)
    requires spare { spare.old.grid ≡ from.now.grid }
    requires grid { to.old.grid ≡ from.now.grid }
    ensures spare { spare.new.grid ≡ from.now.grid }
    ensures grid { to.new.grid ≡ from.now.grid }
    ensures nodes { (n : Node) → Has to.new n ↔ (IsInWindow from.now.grid n × HasBlock from.now n) }
{
    spare.keep_beside_in_rows(from);
    to.keep_beside_in_rows(spare);
    spare.keep_beside_in_columns(to);
    to.keep_beside_in_columns(spare);
}
