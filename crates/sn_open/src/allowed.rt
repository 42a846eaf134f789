//! The cells that a step may cut.
ghost use Rattle.std.specs.Prelude.{◌≡◌, ◌↔◌, ◌*◌, ◌≤◌, ℤ, IfOk};
ghost use Rattle.sn_outline.specs.Job.{Job};
ghost use Rattle.sn_outline.specs.Outline.{HasNearWidth};
ghost use Rattle.sn_outline.specs.JobRule.{IsProper};
ghost use Rattle.sn_raster.specs.Grid.{Node, IsInWindow, IsInRaw, IsGridOf};
ghost use Rattle.sn_raster.specs.Plane.{Has};
ghost use Rattle.sn_open.specs.Region.{IsAllowedHeight};
ghost use Rattle.sn_open.specs.Planes.{IsGridWith, IsHigh, AreAllowed};
ghost use Rattle.sn_open.specs.OnGrid.{KeepsSideOn};
ghost use Rattle.sn_open.specs.Morphology.{HasDisc, IsNearOne, HasBlock};

use crate::morphology::Room;
use sn_geom::{Memory, REACH};
use sn_outline::{Bottom, Outline, StepJob, tip_floor};
use sn_raster::laws::grids;
use sn_raster::{Bits, Grid, fill};
use std::alloc::Global;
use std::marker::Model;

/// The cells that a step may cut, in the window of a grid. All cells outside the window are allowed.
#[derive(Drop)]
pub struct Allowed {
    nodes: Bits,
    lowest: Option<i32>,
    /// Room for another plane.
    spare: Bits,
    room: Room,
}

impl Model for Allowed {
    ghost use Rattle.std.specs.Prelude.{◌≡◌};
    ghost use Rattle.sn_open.specs.Planes.{CellSet};

    ghost Value = { CellSet };

    ghost view = { λ allowed. record { plane = allowed.nodes; lowest = allowed.lowest } };

    ghost invariant = { λ allowed. (allowed.spare.grid ≡ allowed.nodes.grid) × (allowed.room ≡ allowed.nodes.grid) };
}

impl Allowed {
    /// The cells that the step may cut.
    pub fn of(alloc: Global, s: &StepJob, g: &Grid) -> Result<Allowed, Memory>
        requires { IsGridWith g.now s.now }
        ensures { IfOk result (λ allowed. (allowed.plane.grid ≡ g.now)
            × ((job : Job) → IsGridOf g.now job → AreAllowed allowed job s.now)) }
    {
        let mut allowed = Allowed::empty(alloc, g)?;
        allowed.refill(s, g);
        Ok(allowed)
    }

    /// No cells yet.
    pub(crate) fn empty(alloc: Global, g: &Grid) -> Result<Allowed, Memory>
        ensures { IfOk result (λ allowed. allowed.plane.grid ≡ g.now) }
    {
        let nodes = Bits::new(alloc, g)?;
        let spare = Bits::new(alloc, g)?;
        let room = Room::new(alloc, g)?;
        Ok(Allowed {
            nodes,
            lowest: None,
            spare,
            room,
        })
    }

    /// Makes them the cells that the step may cut.
    pub fn refill(&mut self, s: &StepJob, g: &Grid)
        requires grid { self.old.plane.grid ≡ g.now }
        requires executed { IsGridWith g.now s.now }
        ensures grid { self.new.plane.grid ≡ g.now }
        ensures allowed { (job : Job) → IsGridOf g.now job → AreAllowed self.new job s.now }
    {
        g.rule();
        grids();
        self.fill_nodes(&s.outline, s.side);
        self.lowest = lowest_of(s);
    }

    /// Makes the nodes those whose disc of twice the side allowance has no raw node outside the outline.
    fn fill_nodes(&mut self, o: &Outline, side: u32)
        requires width { HasNearWidth o.now.shape }
        requires side { side ≤ REACH }
        ensures grid { self.new.plane.grid ≡ self.old.plane.grid }
        ensures nodes { (n : Node) → Has self.new.plane n
            ↔ (IsInWindow self.old.plane.grid n × KeepsSideOn self.old.plane.grid o.now side n) }
    {
        let g = self.nodes.grid();
        g.rule();
        fill(o, &mut self.nodes);
        self.nodes.invert();
        self.room.keep_raw(&self.nodes, &mut self.spare);
        self.spare.invert();
        self.room.erode(2 * side, &self.spare, &mut self.nodes);
    }

    /// The nodes over which the step may cut: those in the window whose disc of twice the side allowance has no raw node
    /// outside the outline.
    pub fn nodes(&self) -> &Bits
        ensures { result.now ≡ self.now.plane }
    {
        &self.nodes
    }

    /// The lowest height at which the step may cut, and None where it may cut at all heights.
    pub(crate) fn lowest(&self) -> Option<i32>
        ensures { result ≡ self.now.lowest }
    {
        self.lowest
    }

    /// The grid of the nodes.
    pub fn grid(&self) -> Grid
        ensures { result ≡ self.now.plane.grid }
    {
        self.nodes.grid()
    }

    /// Makes it the plane of the nodes whose disc of diameter `d` is all over the nodes, as far as the window goes.
    pub(crate) fn erode(&mut self, d: u32, to: &mut Bits)
        requires diameter { d ≤ 2 * REACH }
        requires to { to.old.grid ≡ self.old.plane.grid }
        ensures allowed { self.new ≡ self.old }
        ensures grid { to.new.grid ≡ self.old.plane.grid }
        ensures nodes { (n : Node) → Has to.new n ↔ (IsInWindow self.old.plane.grid n × HasDisc self.old.plane d n) }
    {
        self.room.erode(d, &self.nodes, to);
    }

    /// Makes it the plane of the nodes of the window in discs of diameter `d` about nodes of the other plane.
    pub(crate) fn dilate(&mut self, d: u32, from: &Bits, to: &mut Bits)
        requires diameter { d ≤ 2 * REACH }
        requires from { from.now.grid ≡ self.old.plane.grid }
        requires to { to.old.grid ≡ self.old.plane.grid }
        ensures allowed { self.new ≡ self.old }
        ensures grid { to.new.grid ≡ self.old.plane.grid }
        ensures nodes { (n : Node) → Has to.new n ↔ (IsInWindow self.old.plane.grid n × IsNearOne from.now d n) }
    {
        self.room.dilate(d, from, to);
    }

    /// Makes it the plane of the nodes of the window whose five by five block is all in the other plane, as far as the
    /// window goes.
    pub(crate) fn keep_blocks(&mut self, from: &Bits, to: &mut Bits)
        requires from { from.now.grid ≡ self.old.plane.grid }
        requires to { to.old.grid ≡ self.old.plane.grid }
        ensures allowed { self.new ≡ self.old }
        ensures grid { to.new.grid ≡ self.old.plane.grid }
        ensures nodes { (n : Node) → Has to.new n ↔ (IsInWindow self.old.plane.grid n × HasBlock from.now n) }
    {
        self.room.keep_blocks(from, to);
    }

    /// Makes it the plane of the raw nodes that the other plane has.
    pub(crate) fn keep_raw(&self, from: &Bits, to: &mut Bits)
        requires from { from.now.grid ≡ self.now.plane.grid }
        requires to { to.old.grid ≡ self.now.plane.grid }
        ensures grid { to.new.grid ≡ self.now.plane.grid }
        ensures nodes { (n : Node) → Has to.new n ↔ (Has from.now n × IsInRaw self.now.plane.grid n) }
    {
        self.room.keep_raw(from, to);
    }
}

/// The lowest height at which the step may cut, and None where it may cut at all heights.
fn lowest_of(s: &StepJob) -> Option<i32>
    requires { IsProper s.now }
    ensures { (z : ℤ) → IsHigh result z ↔ IsAllowedHeight s.now z }
{
    match s.bottom {
        Bottom::Flat => Some(tip_floor(s) as i32),
        Bottom::Conical => Some(tip_floor(s) as i32),
        Bottom::Through => None,
    }
}
