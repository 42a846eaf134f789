//! Features that are drawn from a seed.
ghost use Rattle.std.specs.Prelude.{◌≡◌, ◌<◌, IfOk};
ghost use Rattle.sn_report.specs.Generated.{next, drawn, draw_feature, draw_features};

use crate::feature::Feature;
use sn_geom::Memory;
use std::alloc::Global;
use std::marker::Model;

/// Numbers that are drawn by a linear generator of 32 bits, of which the upper half is used; seen as its state.
#[derive(Drop)]
pub struct Draws {
    state: u32,
}

impl Model for Draws {
    ghost use Rattle.std.specs.Prelude.{ℕ};

    ghost Value = { ℕ };

    ghost view = { λ d. d.state };
}

impl Draws {
    /// The numbers from a seed on.
    pub fn new(seed: u32) -> Draws
        ensures { result ≡ seed }
    {
        Draws { state: seed }
    }

    /// The next number, below `n`.
    pub fn draw(&mut self, n: u32) -> u32
        requires { 0 < n }
        ensures number { result ≡ drawn (next self.old) n }
        ensures state { self.new ≡ next self.old }
        ensures below { result < n }
    {
        let state = (u64::from(self.state) * 1_664_525 + 1_013_904_223) % (1 << 32);
        self.state = state as u32;
        self.state / 65_536 % n
    }

    /// The next feature: its kind first.
    pub fn feature(&mut self) -> Feature
        ensures feature { result ≡ (draw_feature self.old).0 }
        ensures state { self.new ≡ (draw_feature self.old).1 }
    {
        match self.draw(3) {
            0 => Feature::Hole,
            1 => Feature::Pocket {
                width: 12 + self.draw(9),
                length: 12 + self.draw(9),
                depth: 4 + self.draw(5),
            },
            _ => Feature::Slot {
                length: 4 + self.draw(12),
                depth: 3 + self.draw(4),
            },
        }
    }
}

/// So many features, drawn from a seed.
pub fn draw_features(alloc: Global, count: u32, seed: u32) -> Result<Vec<Feature>, Memory>
    ensures { IfOk result (λ features. features.items ≡ draw_features count seed) }
{
    let mut draws = Draws::new(seed);
    let mut features = Vec::with_capacity(alloc, count as usize)?;
    for _place in 0..count {
        features.push(draws.feature())?;
    }
    Ok(features)
}
