//! Why a text is no part text.

use sn_lex::LexFault;
use std::alloc::AllocError;
use thiserror::Error;

/// Why no file is read. Each but `Memory` has the offset at which it stands.
#[derive(Clone, Copy, Debug, PartialEq, Eq, Drop, Error)]
pub enum P21Fault {
    /// The next token is faulty.
    #[error("a token cannot be read")]
    Lex(LexFault),
    /// The grammar has no such token here; at the end of the text the offset is the count of its bytes.
    #[error("unexpected at byte {0}")]
    Unexpected(usize),
    /// The number of an instance that an earlier one has, and the offset of its second place.
    #[error("instance {0} again at byte {1}")]
    Twice(u32, usize),
    /// This opening is that of one more list than may be open.
    #[error("nested too deep at byte {0}")]
    TooDeep(usize),
    #[error("out of memory")]
    Memory,
}

impl From<AllocError> for P21Fault {
    ghost use Rattle.std.specs.Prelude.{◌≡◌};
    ghost use Rattle.sn_p21.specs.declared.fault.P21Fault.TheVariants.{Memory};

    ghost from_gives = { λ _ e. e ≡ Memory };

    fn from(_error: AllocError) -> P21Fault {
        P21Fault::Memory
    }
}
