//! Why a walk ends before its end.

use std::alloc::AllocError;
use thiserror::Error;

/// Why a walk ends before its end.
#[derive(Clone, Copy, Debug, PartialEq, Eq, Drop, Error)]
pub enum WalkFault {
    /// The number of a variable that has no value.
    #[error("variable {0} has no value")]
    Unset(u32),
    /// One visit too many, or one executed step too many.
    #[error("too many steps")]
    TooManySteps,
    /// The number of a workplan that names another setup than the main workplan does.
    #[error("workplan {0} names a second setup")]
    SecondSetup(u32),
    #[error("out of memory")]
    Memory,
}

impl From<AllocError> for WalkFault {
    ghost use Rattle.std.specs.Prelude.{◌≡◌};
    ghost use Rattle.sn_walk.specs.declared.fault.WalkFault.TheVariants.{Memory};

    ghost from_gives = { λ _ e. e ≡ Memory };

    fn from(_error: AllocError) -> WalkFault {
        WalkFault::Memory
    }
}
