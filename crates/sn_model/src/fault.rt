//! Why a file gives no model.

use std::alloc::AllocError;
use thiserror::Error;

/// Why a file gives no model.
#[derive(Clone, Copy, Debug, PartialEq, Eq, Drop, Error)]
pub enum ModelFault {
    /// No simple instance has the keyword PROJECT.
    #[error("no project")]
    NoProject,
    /// The number of the second simple instance, in file order, that has the keyword PROJECT.
    #[error("instance {0} is a second project")]
    TwoProjects(u32),
    #[error("out of memory")]
    Memory,
}

impl From<AllocError> for ModelFault {
    ghost use Rattle.std.specs.Prelude.{◌≡◌};
    ghost use Rattle.sn_model.specs.declared.fault.ModelFault.TheVariants.{Memory};

    ghost from_gives = { λ _ e. e ≡ Memory };

    fn from(_error: AllocError) -> ModelFault {
        ModelFault::Memory
    }
}
