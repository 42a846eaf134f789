//! The free centres of the tool of a step.
ghost use Rattle.std.specs.Prelude.{◌≡◌, IfOk};
ghost use Rattle.sn_outline.specs.Job.{Job};
ghost use Rattle.sn_raster.specs.Grid.{IsGridOf};
ghost use Rattle.sn_open.specs.Planes.{IsGridWith, AreCentres};

use crate::allowed::Allowed;
use crate::laws::outside;
use sn_geom::Memory;
use sn_outline::StepJob;
use sn_raster::{Bits, Grid};
use std::alloc::Global;
use std::marker::Model;

/// The nodes of the window of a grid at which the whole tool of a step is over nodes over which the step may cut.
#[derive(Drop)]
pub struct Centres {
    nodes: Bits,
    allowed: Allowed,
}

impl Model for Centres {
    ghost use Rattle.std.specs.Prelude.{◌≡◌};
    ghost use Rattle.sn_raster.specs.Plane.{Plane};

    ghost Value = { Plane };

    ghost view = { λ centres. centres.nodes };

    ghost invariant = { λ centres. centres.allowed.plane.grid ≡ centres.nodes.grid };
}

impl Centres {
    /// The free centres of the step.
    pub fn of(alloc: Global, s: &StepJob, g: &Grid) -> Result<Centres, Memory>
        requires { IsGridWith g.now s.now }
        ensures { IfOk result (λ centres. (centres.grid ≡ g.now)
            × ((job : Job) → IsGridOf g.now job → AreCentres centres job s.now)) }
    {
        let nodes = Bits::new(alloc, g)?;
        let allowed = Allowed::empty(alloc, g)?;
        let mut centres = Centres { nodes, allowed };
        centres.refill(s, g);
        Ok(centres)
    }

    /// Makes them the free centres of the step.
    pub fn refill(&mut self, s: &StepJob, g: &Grid)
        requires grid { self.old.grid ≡ g.now }
        requires executed { IsGridWith g.now s.now }
        ensures grid { self.new.grid ≡ g.now }
        ensures centres { (job : Job) → IsGridOf g.now job → AreCentres self.new job s.now }
    {
        g.rule();
        outside();
        self.allowed.refill(s, g);
        self.allowed.erode(s.body.d, &mut self.nodes);
    }

    /// The free centres.
    pub fn nodes(&self) -> &Bits
        ensures { result.now ≡ self.now }
    {
        &self.nodes
    }

    /// The grid of the centres.
    pub fn grid(&self) -> Grid
        ensures { result ≡ self.now.grid }
    {
        self.nodes.grid()
    }
}
