//! Why words are no command line.

use sn_geom::Memory;
use std::alloc::AllocError;
use thiserror::Error;

/// Why words are no command line.
#[derive(Clone, Copy, Debug, PartialEq, Eq, Drop, Error)]
pub enum WordFault {
    /// The place, counted from 1, of the first word that cannot stand there; where one is missing, the place after the last.
    #[error("word {0}")]
    At(usize),
    #[error("out of memory")]
    Memory,
}

impl From<AllocError> for WordFault {
    ghost use Rattle.std.specs.Prelude.{◌≡◌};
    ghost use Rattle.sn_words.specs.declared.fault.WordFault.TheVariants.{Memory};

    ghost from_gives = { λ _ e. e ≡ Memory };

    fn from(_error: AllocError) -> WordFault {
        WordFault::Memory
    }
}

impl From<Memory> for WordFault {
    ghost use Rattle.std.specs.Prelude.{◌≡◌};
    ghost use Rattle.sn_words.specs.declared.fault.WordFault.TheVariants.{Memory};

    ghost from_gives = { λ _ e. e ≡ Memory };

    fn from(_error: Memory) -> WordFault {
        WordFault::Memory
    }
}
