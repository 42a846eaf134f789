//! The nodes that a step opens.
ghost use Rattle.std.specs.Prelude.{◌≡◌, ◌↔◌, ◌⊎◌, ◌≤◌, IfOk};
ghost use Rattle.sn_outline.specs.Job.{Job};
ghost use Rattle.sn_outline.specs.JobRule.{IsProper};
ghost use Rattle.sn_outline.specs.Outline.{NearTrail};
ghost use Rattle.sn_raster.specs.Grid.{Node, IsGridOf, IsInWindow, IsRawNode, InDisc, place};
ghost use Rattle.sn_raster.specs.Plane.{Has, IsEmpty};
ghost use Rattle.sn_open.specs.Planes.{IsGridWith, IsOpeningPlane};
ghost use Rattle.sn_open.specs.OnGrid.{IsCleared, IsDrilledOn, HasRoomOn};
ghost use Rattle.sn_open.specs.Region.{IsFollowedAt, IsFollowed, IsDrilledAtCentre};

use crate::allowed::Allowed;
use crate::laws::outside;
use sn_geom::laws::nearness;
use sn_geom::{Memory, Pt, REACH, Seg};
use sn_outline::laws::shapes;
use sn_outline::{Shape, StepJob, Way};
use sn_raster::laws::grids;
use sn_raster::{Bits, Grid, add_near};
use std::alloc::Global;
use std::marker::Model;

/// The raw nodes over which a step can cut down to its floor.
#[derive(Drop)]
pub struct Opening {
    nodes: Bits,
    /// Room for two more planes.
    near: Bits,
    centres: Bits,
    allowed: Allowed,
}

impl Model for Opening {
    ghost use Rattle.std.specs.Prelude.{◌≡◌};
    ghost use Rattle.sn_raster.specs.Plane.{Plane};

    ghost Value = { Plane };

    ghost view = { λ opening. opening.nodes };

    ghost invariant = { λ opening. (opening.near.grid ≡ opening.nodes.grid)
        × (opening.centres.grid ≡ opening.nodes.grid)
        × (opening.allowed.plane.grid ≡ opening.nodes.grid) };
}

impl Opening {
    /// The opening of the step.
    pub fn of(alloc: Global, s: &StepJob, g: &Grid) -> Result<Opening, Memory>
        requires { IsGridWith g.now s.now }
        ensures { IfOk result (λ opening. (opening.grid ≡ g.now)
            × ((job : Job) → IsGridOf g.now job → IsOpeningPlane opening job s.now)) }
    {
        let mut opening = Opening::empty(alloc, g)?;
        opening.refill(s, g);
        Ok(opening)
    }

    /// No nodes yet.
    pub(crate) fn empty(alloc: Global, g: &Grid) -> Result<Opening, Memory>
        ensures { IfOk result (λ opening. opening.grid ≡ g.now) }
    {
        let nodes = Bits::new(alloc, g)?;
        let near = Bits::new(alloc, g)?;
        let centres = Bits::new(alloc, g)?;
        let allowed = Allowed::empty(alloc, g)?;
        Ok(Opening {
            nodes,
            near,
            centres,
            allowed,
        })
    }

    /// Makes it the opening of the step.
    pub fn refill(&mut self, s: &StepJob, g: &Grid)
        requires grid { self.old.grid ≡ g.now }
        requires executed { IsGridWith g.now s.now }
        ensures grid { self.new.grid ≡ g.now }
        ensures opening { (job : Job) → IsGridOf g.now job → IsOpeningPlane self.new job s.now }
    {
        g.rule();
        outside();
        grids();
        match s.way {
            Way::Clear => self.clear_area(s, g),
            Way::Trail => self.follow(s, g),
            Way::Drill => self.drill(s, g),
        }
    }

    /// The nodes of the opening.
    pub fn nodes(&self) -> &Bits
        ensures { result.now ≡ self.now }
    {
        &self.nodes
    }

    /// The grid of the opening.
    pub fn grid(&self) -> Grid
        ensures { result ≡ self.now.grid }
    {
        self.nodes.grid()
    }

    /// Makes it the raw nodes in the discs about free centres.
    fn clear_area(&mut self, s: &StepJob, g: &Grid)
        requires grid { self.old.grid ≡ g.now }
        requires executed { IsGridWith g.now s.now }
        ensures grid { self.new.grid ≡ g.now }
        ensures opening { (job : Job) → IsGridOf g.now job → (n : Node) → Has self.new n ↔ IsCleared job s.now n }
    {
        g.rule();
        outside();
        grids();
        self.allowed.refill(s, g);
        self.allowed.erode(s.body.d, &mut self.centres);
        self.allowed.dilate(s.body.d, &self.centres, &mut self.near);
        self.allowed.keep_raw(&self.near, &mut self.nodes);
    }

    /// Makes it the raw nodes near the trail of the outline.
    fn follow(&mut self, s: &StepJob, g: &Grid)
        requires grid { self.old.grid ≡ g.now }
        requires executed { IsGridWith g.now s.now }
        ensures grid { self.new.grid ≡ g.now }
        ensures opening { (job : Job) → IsGridOf g.now job → (n : Node) → Has self.new n
            ↔ (IsRawNode job n × IsFollowed job s.now s.now.outline.shape n) }
    {
        g.rule();
        grids();
        self.near.clear();
        add_followed(s, &mut self.near);
        self.allowed.keep_raw(&self.near, &mut self.nodes);
    }

    /// Makes it the raw nodes of the disc about the centre of the outline, where the step may cut over all of that disc.
    fn drill(&mut self, s: &StepJob, g: &Grid)
        requires grid { self.old.grid ≡ g.now }
        requires executed { IsGridWith g.now s.now }
        ensures grid { self.new.grid ≡ g.now }
        ensures opening { (job : Job) → IsGridOf g.now job → (n : Node) → Has self.new n
            ↔ (IsRawNode job n × IsDrilledAtCentre job s.now s.now.outline.shape n) }
    {
        g.rule();
        outside();
        grids();
        self.allowed.refill(s, g);
        self.near.clear();
        add_drilled(s, &self.allowed, &mut self.near);
        self.allowed.keep_raw(&self.near, &mut self.nodes);
    }
}

/// Makes an empty plane that of the nodes of the window near the trail of the outline.
fn add_followed(s: &StepJob, plane: &mut Bits)
    requires step { IsProper s.now }
    requires empty { IsEmpty plane.old }
    ensures grid { plane.new.grid ≡ plane.old.grid }
    ensures nodes { (n : Node) → Has plane.new n
        ↔ (IsInWindow plane.old.grid n × IsFollowedAt plane.old.grid.pitch s.now s.now.outline.shape n) }
{
    if let Shape::Trail(points, _) = &s.outline.shape {
        add_trail(plane, s.body.d, points.as_slice());
    }
}

/// Makes an empty plane that of the nodes of the window that are drilled at the centre of the outline.
fn add_drilled(s: &StepJob, allowed: &Allowed, plane: &mut Bits)
    requires step { IsProper s.now }
    requires grid { plane.old.grid ≡ allowed.now.plane.grid }
    requires empty { IsEmpty plane.old }
    ensures grid { plane.new.grid ≡ plane.old.grid }
    ensures nodes { (n : Node) → Has plane.new n
        ↔ (IsInWindow plane.old.grid n × IsDrilledOn allowed.now.plane s.now s.now.outline.shape n) }
{
    if let Shape::Circle(centre, _) = &s.outline.shape {
        add_disc_with_room(allowed, s.body.d, centre, plane);
    }
}

/// Puts in the nodes of the window within half of `d` of the trail.
fn add_trail(plane: &mut Bits, d: u32, points: &[Pt])
    requires { d ≤ REACH }
    ensures grid { plane.new.grid ≡ plane.old.grid }
    ensures nodes { (n : Node) → Has plane.new n
        ↔ (Has plane.old n ⊎ (IsInWindow plane.old.grid n × NearTrail points.now d (place plane.old.grid.pitch n))) }
{
    shapes();
    let Some((first, rest)) = points.split_first() else {
        return;
    };
    let mut from = *first;
    for to in rest {
        add_near(d, &Seg { a: from, b: *to }, plane);
        from = *to;
    }
}

/// Makes an empty plane that of the disc of diameter `d` about a point, where the allowed cells have all of it.
fn add_disc_with_room(allowed: &Allowed, d: u32, centre: &Pt, plane: &mut Bits)
    requires diameter { d ≤ REACH }
    requires grid { plane.old.grid ≡ allowed.now.plane.grid }
    requires empty { IsEmpty plane.old }
    ensures grid { plane.new.grid ≡ plane.old.grid }
    ensures nodes { (n : Node) → Has plane.new n
        ↔ (IsInWindow plane.old.grid n × InDisc allowed.now.plane.grid.pitch d centre.now n × HasRoomOn allowed.now.plane d centre.now) }
{
    nearness();
    let g = plane.grid();
    let spot = Seg {
        a: *centre,
        b: *centre,
    };
    add_near(d, &spot, plane);
    if !plane.is_within(allowed.nodes()) {
        plane.clear();
    }
}
