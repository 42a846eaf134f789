//! The nodes over which a feature has to be cut.
ghost use Rattle.std.specs.Prelude.{◌≡◌, ◌↔◌, IfOk};
ghost use Rattle.sn_outline.specs.Job.{Job as JobContent};
ghost use Rattle.sn_raster.specs.Grid.{Node, IsGridOf};
ghost use Rattle.sn_raster.specs.Plane.{Has};
ghost use Rattle.sn_open.specs.Region.{IsRequiredBy};
ghost use Rattle.sn_open.specs.Planes.{IsGridWith, AreRequired};
ghost use Rattle.sn_open.specs.Reach.{IsExecuted};

use crate::allowed::Allowed;
use crate::laws::outside;
use crate::least::{Allowance, step_of_least};
use sn_geom::Memory;
use sn_outline::{Job, StepJob};
use sn_raster::laws::grids;
use sn_raster::{Bits, Grid};
use std::alloc::Global;
use std::marker::Model;

/// The raw nodes over which a feature has to be cut.
#[derive(Drop)]
pub struct Required {
    nodes: Bits,
    /// Room for two more planes.
    first: Bits,
    second: Bits,
    allowed: Allowed,
}

impl Model for Required {
    ghost use Rattle.std.specs.Prelude.{◌≡◌};
    ghost use Rattle.sn_raster.specs.Plane.{Plane};

    ghost Value = { Plane };

    ghost view = { λ required. required.nodes };

    ghost invariant = { λ required. (required.first.grid ≡ required.nodes.grid)
        × (required.second.grid ≡ required.nodes.grid)
        × (required.allowed.plane.grid ≡ required.nodes.grid) };
}

impl Required {
    /// The nodes over which the feature has to be cut.
    pub fn of(alloc: Global, j: &Job, feature: u32, g: &Grid) -> Result<Required, Memory>
        requires grid { IsGridOf g.now j.now }
        requires executed { IsExecuted j.now feature }
        ensures { IfOk result (λ required. (required.grid ≡ g.now) × AreRequired required j.now feature) }
    {
        let mut required = Required::empty(alloc, g)?;
        required.refill(j, feature, g);
        Ok(required)
    }

    /// No nodes yet.
    pub(crate) fn empty(alloc: Global, g: &Grid) -> Result<Required, Memory>
        ensures { IfOk result (λ required. required.grid ≡ g.now) }
    {
        let nodes = Bits::new(alloc, g)?;
        let first = Bits::new(alloc, g)?;
        let second = Bits::new(alloc, g)?;
        let allowed = Allowed::empty(alloc, g)?;
        Ok(Required {
            nodes,
            first,
            second,
            allowed,
        })
    }

    /// Makes them the nodes over which the feature has to be cut.
    pub fn refill(&mut self, j: &Job, feature: u32, g: &Grid)
        requires own { self.old.grid ≡ g.now }
        requires grid { IsGridOf g.now j.now }
        requires executed { IsExecuted j.now feature }
        ensures grid { self.new.grid ≡ g.now }
        ensures required { AreRequired self.new j.now feature }
    {
        g.rule();
        j.rule();
        if let Some(s) = step_of_least(j.steps(), feature, Allowance::Side) {
            self.refill_by(s, g);
        }
    }

    /// Makes them the nodes that are required by the allowed nodes of the step.
    fn refill_by(&mut self, s: &StepJob, g: &Grid)
        requires grid { self.old.grid ≡ g.now }
        requires executed { IsGridWith g.now s.now }
        ensures grid { self.new.grid ≡ g.now }
        ensures nodes { (job : JobContent) → IsGridOf g.now job → (n : Node) → Has self.new n ↔ IsRequiredBy job s.now n }
    {
        g.rule();
        outside();
        grids();
        self.allowed.refill(s, g);
        self.allowed.erode(s.corner, &mut self.first);
        self.allowed.dilate(s.corner, &self.first, &mut self.second);
        self.second.invert();
        self.allowed.keep_raw(&self.second, &mut self.first);
        self.first.invert();
        self.allowed.keep_blocks(&self.first, &mut self.second);
        self.allowed.keep_raw(&self.second, &mut self.nodes);
    }

    /// The nodes over which the feature has to be cut.
    pub fn nodes(&self) -> &Bits
        ensures { result.now ≡ self.now }
    {
        &self.nodes
    }

    /// The grid of the nodes.
    pub fn grid(&self) -> Grid
        ensures { result ≡ self.now.grid }
    {
        self.nodes.grid()
    }
}
