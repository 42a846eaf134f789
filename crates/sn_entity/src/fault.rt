//! Why an instance does not show its row.

use std::alloc::AllocError;
use thiserror::Error;

/// Why an instance does not show its row. Each but `Memory` begins with the number of the instance.
#[derive(Clone, Copy, Debug, PartialEq, Eq, Drop, Error)]
pub enum EntFault {
    /// The instance has fewer parameters than its row reads: how many are wanted, and how many it has.
    #[error("instance {0} wants {1} parameters and has {2}")]
    Count(u32, u32, u32),
    /// The parameter at this place has another form than its kind wants.
    #[error("instance {0} has parameter {1} of a wrong kind")]
    KindAt(u32, u32),
    /// The number of the parameter at this place is out of its limits.
    #[error("instance {0} has parameter {1} out of range")]
    Range(u32, u32),
    #[error("out of memory")]
    Memory,
}

impl From<AllocError> for EntFault {
    ghost use Rattle.std.specs.Prelude.{◌≡◌};
    ghost use Rattle.sn_entity.specs.declared.fault.EntFault.TheVariants.{Memory};

    ghost from_gives = { λ _ e. e ≡ Memory };

    fn from(_error: AllocError) -> EntFault {
        EntFault::Memory
    }
}
