//! The parts of a step.
ghost use Rattle.std.specs.Prelude.{◌≡◌};
ghost use Rattle.sn_feature.specs.Step.{step_with, lowest_tip as lowest_tip_of};

use sn_geom::{Body, Um};
use sn_outline::{Bottom, Outline, StepJob, Way};

/// Where a feature is in the setup.
#[derive(Drop)]
pub struct PlacedFeature {
    /// The height of its origin.
    pub top: Um,
    /// The height of its floor.
    pub floor: Um,
    pub outline: Outline,
}

/// What an executed workingstep gives a step of a job: all but the number of its tool in the program, and the corner
/// diameter where that depends on other steps. Lengths are tenths of a micrometre, heights and places those of the setup.
#[derive(Drop)]
pub struct StepParts {
    /// The instance number of the workingstep.
    pub ws: u32,
    /// The instance number of the feature.
    pub feature: u32,
    pub outline: Outline,
    /// The height of the feature's origin.
    pub top: Um,
    /// The height of the feature's floor.
    pub floor: Um,
    pub bottom: Bottom,
    /// The corner diameter that the feature gives, which is 0 for a hole or a slot; `None` for a face, and for a pocket that
    /// gives none.
    pub corner: Option<u32>,
    /// The side allowance.
    pub side: u32,
    /// The bottom allowance.
    pub under: u32,
    /// The axial depth of cut.
    pub axial: u32,
    /// The radial depth of cut.
    pub radial: u32,
    /// The instance number of the tool.
    pub tool: u32,
    pub body: Body,
    /// In mm/min.
    pub feed: u32,
    /// In rev/min.
    pub speed: u32,
    pub way: Way,
}

impl StepParts {
    /// The step with the number of its tool in the program, from 1, and its corner diameter in tenths of a micrometre.
    pub fn into_step(self, tool: u32, corner: u32) -> StepJob
        ensures { result ≡ step_with self tool corner }
    {
        StepJob {
            ws: self.ws,
            feature: self.feature,
            outline: self.outline,
            top: self.top.get(),
            floor: self.floor.get(),
            bottom: self.bottom,
            corner,
            side: self.side,
            under: self.under,
            axial: self.axial,
            radial: self.radial,
            tool,
            body: self.body,
            feed: self.feed,
            speed: self.speed,
            way: self.way,
        }
    }
}

/// The lowest height of the tip in a step: its floor with the bottom allowance, and below that the point of the tool where
/// the bottom is conical or through.
pub(crate) fn lowest_tip(parts: &StepParts) -> i64
    ensures { result ≡ lowest_tip_of parts.now }
{
    let floor = i64::from(parts.floor.get()) + i64::from(parts.under);
    match parts.bottom {
        Bottom::Flat => floor,
        Bottom::Conical => floor - i64::from(parts.body.e),
        Bottom::Through => floor - i64::from(parts.body.e),
    }
}
