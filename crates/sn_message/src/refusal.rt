//! Why there is no answer, and what is said of it.

use sn_flow::JobFault;
use sn_geom::{Cell, Memory};
use sn_io::Failed;
use sn_lex::LexFault;
use sn_model::ModelFault;
use sn_p21::P21Fault;
use sn_refs::RefFault;
use sn_words::WordFault;
use std::alloc::AllocError;

/// Why there is no answer: no program is written, or no verdict is given.
#[derive(Clone, Copy, Debug, PartialEq, Eq)]
pub enum Refusal {
    /// The word at a place, counted from 1, cannot stand there.
    Word(usize),
    /// The part's file or the program's was not read.
    NotRead,
    /// Memory was wanting.
    NoMemory,
    /// The part's file or the program's is too long.
    TooLong,
    /// The part's text is no part text.
    Text(TextFault),
    /// The instances of the part have no model.
    Model(ModelFault),
    /// The model of the part is not sound.
    Reference(RefFault),
    /// The part gives no job.
    Job(JobFault),
    /// No step opens this cell of the feature with this instance number, which has to be cut.
    Uncovered(u32, Cell),
}

/// Why a text is no part text, each with the offset at which it shows.
#[derive(Clone, Copy, Debug, PartialEq, Eq)]
pub enum TextFault {
    /// The next token is faulty.
    Lex(LexFault),
    /// The grammar has no such token here.
    Unexpected(usize),
    /// The number of an instance that an earlier one has, and the offset of its second place.
    Twice(u32, usize),
    /// This opening is that of one more list than may be open.
    TooDeep(usize),
}

impl From<Failed> for Refusal {
    ghost use Rattle.std.specs.Prelude.{◌≡◌};
    ghost use Rattle.sn_message.specs.declared.refusal.Refusal.TheVariants.{NotRead};

    ghost from_gives = { λ _ refusal. refusal ≡ NotRead };

    fn from(_failed: Failed) -> Refusal {
        Refusal::NotRead
    }
}

impl From<AllocError> for Refusal {
    ghost use Rattle.std.specs.Prelude.{◌≡◌};
    ghost use Rattle.sn_message.specs.declared.refusal.Refusal.TheVariants.{NoMemory};

    ghost from_gives = { λ _ refusal. refusal ≡ NoMemory };

    fn from(_error: AllocError) -> Refusal {
        Refusal::NoMemory
    }
}

impl From<Memory> for Refusal {
    ghost use Rattle.std.specs.Prelude.{◌≡◌};
    ghost use Rattle.sn_message.specs.declared.refusal.Refusal.TheVariants.{NoMemory};

    ghost from_gives = { λ _ refusal. refusal ≡ NoMemory };

    fn from(_error: Memory) -> Refusal {
        Refusal::NoMemory
    }
}

impl From<P21Fault> for Refusal {
    ghost use Rattle.std.specs.Prelude.{◌≡◌};
    ghost use Rattle.sn_message.specs.FaultText.{refusal_of};

    ghost from_gives = { λ fault refusal. refusal ≡ refusal_of fault };

    fn from(fault: P21Fault) -> Refusal {
        match fault {
            P21Fault::Lex(fault) => Refusal::Text(TextFault::Lex(fault)),
            P21Fault::Unexpected(at) => Refusal::Text(TextFault::Unexpected(at)),
            P21Fault::Twice(number, at) => Refusal::Text(TextFault::Twice(number, at)),
            P21Fault::TooDeep(at) => Refusal::Text(TextFault::TooDeep(at)),
            P21Fault::Memory => Refusal::NoMemory,
        }
    }
}

impl From<WordFault> for Refusal {
    ghost use Rattle.std.specs.Prelude.{◌≡◌};
    ghost use Rattle.sn_message.specs.FaultText.{refusal_of_words};

    ghost from_gives = { λ fault refusal. refusal ≡ refusal_of_words fault };

    fn from(fault: WordFault) -> Refusal {
        match fault {
            WordFault::At(place) => Refusal::Word(place),
            WordFault::Memory => Refusal::NoMemory,
        }
    }
}

impl From<ModelFault> for Refusal {
    ghost use Rattle.std.specs.Prelude.{◌≡◌};
    ghost use Rattle.sn_message.specs.FaultText.{refusal_of_model};

    ghost from_gives = { λ fault refusal. refusal ≡ refusal_of_model fault };

    fn from(fault: ModelFault) -> Refusal {
        match fault {
            ModelFault::NoProject | ModelFault::TwoProjects(_) => Refusal::Model(fault),
            ModelFault::Memory => Refusal::NoMemory,
        }
    }
}

impl From<RefFault> for Refusal {
    ghost use Rattle.std.specs.Prelude.{◌≡◌};
    ghost use Rattle.sn_message.specs.FaultText.{refusal_of_references};

    ghost from_gives = { λ fault refusal. refusal ≡ refusal_of_references fault };

    fn from(fault: RefFault) -> Refusal {
        match fault {
            RefFault::Memory => Refusal::NoMemory,
            _ => Refusal::Reference(fault),
        }
    }
}

impl From<JobFault> for Refusal {
    ghost use Rattle.std.specs.Prelude.{◌≡◌};
    ghost use Rattle.sn_message.specs.FaultText.{refusal_of_job};

    ghost from_gives = { λ fault refusal. refusal ≡ refusal_of_job fault };

    fn from(fault: JobFault) -> Refusal {
        match fault {
            JobFault::Memory => Refusal::NoMemory,
            _ => Refusal::Job(fault),
        }
    }
}
