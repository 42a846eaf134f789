//! Why a workingstep gives no step.

use sn_frame::FrameFault;
use std::alloc::AllocError;
use thiserror::Error;

/// Why a workingstep gives no step of a job.
#[derive(Clone, Copy, Debug, PartialEq, Eq, Drop, Error)]
pub enum StepFault {
    /// A placement or a direction is skew, or a coordinate leaves the range.
    #[error("frame")]
    Frame(FrameFault),
    /// The number of a feature that has its floor above its top.
    #[error("feature {0} has its floor above its top")]
    Depth(u32),
    /// The number of a feature with a bad outline: a size of it is 0, its path lies along Z, a polygon has fewer than 3 corners or
    /// a trail fewer than 2 points, or its polyline lists more than 1,000.
    #[error("feature {0} has a bad outline")]
    BadOutline(u32),
    /// The number of a workingstep whose tool is not one for its operation and its feature.
    #[error("workingstep {0} has a wrong tool")]
    WrongTool(u32),
    /// The number of a workingstep whose tool is too short.
    #[error("workingstep {0} has a short tool")]
    ShortTool(u32),
    #[error("out of memory")]
    Memory,
}

impl From<AllocError> for StepFault {
    ghost use Rattle.std.specs.Prelude.{◌≡◌};
    ghost use Rattle.sn_feature.specs.declared.fault.StepFault.TheVariants.{Memory};

    ghost from_gives = { λ _ e. e ≡ Memory };

    fn from(_error: AllocError) -> StepFault {
        StepFault::Memory
    }
}

impl From<FrameFault> for StepFault {
    ghost use Rattle.std.specs.Prelude.{◌≡◌};
    ghost use Rattle.sn_feature.specs.declared.fault.StepFault.TheVariants.{Frame};

    ghost from_gives = { λ fault e. e ≡ Frame fault };

    fn from(fault: FrameFault) -> StepFault {
        StepFault::Frame(fault)
    }
}
