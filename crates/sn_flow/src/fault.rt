//! Why a sound model gives no job.

use sn_feature::StepFault;
use sn_frame::FrameFault;
use sn_walk::WalkFault;
use std::alloc::AllocError;
use thiserror::Error;

/// Why a sound model gives no job. Numbers are those of instances.
#[derive(Clone, Copy, Debug, PartialEq, Eq, Drop, Error)]
pub enum JobFault {
    /// A placement or a direction is skew, or a coordinate leaves the range.
    #[error("{0:?}")]
    Frame(FrameFault),
    /// A variable that has no value.
    #[error("variable {0} has no value")]
    Unset(u32),
    /// More than 10,000 visits of executables, conditions and values, or more than 1,000 executed steps.
    #[error("too many steps")]
    TooManySteps,
    /// A workplan that names another setup than the main one does.
    #[error("workplan {0} names a second setup")]
    SecondSetup(u32),
    /// No raw box is given, and no BLOCK bounds the workpiece.
    #[error("raw box unknown")]
    RawUnknown,
    /// The security height is below the raw top.
    #[error("security plane below the raw top")]
    SecLow,
    /// A workingstep whose tool is not one for its operation and its feature.
    #[error("workingstep {0} has a wrong tool")]
    WrongTool(u32),
    /// A workingstep whose tool does not reach from the raw top down to its lowest tip.
    #[error("workingstep {0} has a short tool")]
    ShortTool(u32),
    /// A feature that has its floor above its top.
    #[error("feature {0} has its floor above its top")]
    Depth(u32),
    /// A feature with a bad outline: a size of it is 0, its path lies along Z, a polygon has fewer than 3 corners or a trail
    /// fewer than 2 points, or its polyline lists more than 1,000.
    #[error("feature {0} has a bad outline")]
    BadOutline(u32),
    /// The window of the grid leaves the range of coordinates or has too many nodes. It comes from the grid, not from the part.
    #[error("grid too big")]
    GridTooBig,
    /// A feature without a required node. It comes from the grid, not from the part.
    #[error("feature {0} too small for the grid")]
    TooSmall(u32),
    #[error("out of memory")]
    Memory,
}

impl From<AllocError> for JobFault {
    ghost use Rattle.std.specs.Prelude.{◌≡◌};
    ghost use Rattle.sn_flow.specs.declared.fault.JobFault.TheVariants.{Memory};

    ghost from_gives = { λ _ e. e ≡ Memory };

    fn from(_error: AllocError) -> JobFault {
        JobFault::Memory
    }
}

impl From<WalkFault> for JobFault {
    ghost use Rattle.std.specs.Prelude.{◌≡◌};
    ghost use Rattle.sn_flow.specs.Faults.{of_walk};

    ghost from_gives = { λ why e. e ≡ of_walk why };

    fn from(fault: WalkFault) -> JobFault {
        match fault {
            WalkFault::Unset(n) => JobFault::Unset(n),
            WalkFault::TooManySteps => JobFault::TooManySteps,
            WalkFault::SecondSetup(n) => JobFault::SecondSetup(n),
            WalkFault::Memory => JobFault::Memory,
        }
    }
}

impl From<FrameFault> for JobFault {
    ghost use Rattle.std.specs.Prelude.{◌≡◌};
    ghost use Rattle.sn_flow.specs.declared.fault.JobFault.TheVariants.{Frame};

    ghost from_gives = { λ why e. e ≡ Frame why };

    fn from(fault: FrameFault) -> JobFault {
        JobFault::Frame(fault)
    }
}

impl From<StepFault> for JobFault {
    ghost use Rattle.std.specs.Prelude.{◌≡◌};
    ghost use Rattle.sn_flow.specs.Faults.{of_step};

    ghost from_gives = { λ why e. e ≡ of_step why };

    fn from(fault: StepFault) -> JobFault {
        match fault {
            StepFault::Frame(why) => JobFault::Frame(why),
            StepFault::Depth(n) => JobFault::Depth(n),
            StepFault::BadOutline(n) => JobFault::BadOutline(n),
            StepFault::WrongTool(ws) => JobFault::WrongTool(ws),
            StepFault::ShortTool(ws) => JobFault::ShortTool(ws),
            StepFault::Memory => JobFault::Memory,
        }
    }
}
