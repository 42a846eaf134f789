//! Why a model is not sound.

use sn_entity::EntFault;
use std::alloc::AllocError;
use thiserror::Error;

/// Why a model is not sound. The faults speak of instances that the project leads to.
#[derive(Clone, Copy, Debug, PartialEq, Eq, Drop, Error)]
pub enum RefFault {
    /// An instance does not show its row.
    #[error("{0}")]
    Entity(EntFault),
    /// The number of an instance, and the place of a parameter that names no instance.
    #[error("instance {0} has parameter {1} that names nothing")]
    Dangling(u32, u32),
    /// The number of an instance, the place of a parameter, and the number of an instance of a wrong kind that it names.
    #[error("instance {0} has parameter {1} that names instance {2} of a wrong kind")]
    WrongKind(u32, u32, u32),
    /// The least number of an instance that leads back to itself.
    #[error("instance {0} leads back to itself")]
    Cycle(u32),
    #[error("out of memory")]
    Memory,
}

impl From<AllocError> for RefFault {
    ghost use Rattle.std.specs.Prelude.{◌≡◌};
    ghost use Rattle.sn_refs.specs.declared.fault.RefFault.TheVariants.{Memory};

    ghost from_gives = { λ _ e. e ≡ Memory };

    fn from(_error: AllocError) -> RefFault {
        RefFault::Memory
    }
}
