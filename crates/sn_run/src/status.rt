//! How a command ends.
ghost use Rattle.std.specs.Prelude.{◌≡◌, ◌≢◌};
ghost use Rattle.sn_run.specs.Answer.{status_of_verdict};
ghost use Rattle.sn_run.specs.Exit.{exit_status, final_status};
ghost use Rattle.sn_run.specs.Outcome.{status_of};

use sn_geom::Memory;
use sn_message::Refusal;
use sn_open::Verdict;
use std::io::ErrorKind;

/// The status of a command.
#[derive(Clone, Copy, Debug, PartialEq, Eq)]
pub enum Status {
    /// The command was carried out.
    Done = 0,
    /// The part's text or form is refused.
    PartRefused = 1,
    /// The words are no command.
    BadWords = 2,
    /// A file could not be opened or read.
    ReadFault = 3,
    /// The output or the errors could not be written.
    WriteFault = 4,
    /// Memory was wanting.
    Memory = 5,
    /// The verdict is no.
    No = 6,
    /// A cell that has to be cut cannot be reached.
    Uncovered = 7,
    /// The part or the program is too long.
    TooLong = 8,
}

impl Status {
    /// The exit status of the program.
    pub fn code(self) -> u8
        ensures { result ≡ exit_status self }
    {
        self as u8
    }

    /// What is left of a status where the output and the errors are handed over whole, or are not.
    pub fn handed_over(self, written: bool, told: bool) -> Status
        ensures { result ≡ final_status self written told }
    {
        if written && told {
            self
        } else {
            Status::WriteFault
        }
    }

    /// The status of a verdict that was told.
    pub fn of_verdict(verdict: Verdict) -> Status
        ensures { result ≡ status_of_verdict verdict }
    {
        match verdict {
            Verdict::Yes => Status::Done,
            Verdict::Line(..) | Verdict::NoEnd | Verdict::Missing(_) | Verdict::Uncovered(..) =>
                Status::No,
        }
    }

    /// The status of a refusal that was told.
    pub fn of_refusal(refusal: Refusal) -> Status
        ensures { result ≡ status_of refusal }
    {
        match refusal {
            Refusal::Word(_) => Status::BadWords,
            Refusal::NotRead => Status::ReadFault,
            Refusal::NoMemory => Status::Memory,
            Refusal::TooLong => Status::TooLong,
            Refusal::Text(_) | Refusal::Model(_) | Refusal::Reference(_) | Refusal::Job(_) =>
                Status::PartRefused,
            Refusal::Uncovered(..) => Status::Uncovered,
        }
    }

    /// The status where the arguments of the program cannot be had: they are no text, or memory is wanting.
    pub fn of_lost_words(kind: ErrorKind) -> Status
        ensures memory { kind ≡ ErrorKind.OutOfMemory → result ≡ Status.Memory }
        ensures words { kind ≢ ErrorKind.OutOfMemory → result ≡ Status.BadWords }
    {
        match kind {
            ErrorKind::OutOfMemory => Status::Memory,
            _ => Status::BadWords,
        }
    }
}

impl From<Memory> for Status {
    ghost use Rattle.std.specs.Prelude.{◌≡◌};
    ghost use Rattle.sn_run.specs.declared.status.Status.TheVariants.{Memory};

    ghost from_gives = { λ _ status. status ≡ Memory };

    fn from(_error: sn_geom::Memory) -> Status {
        Status::Memory
    }
}
