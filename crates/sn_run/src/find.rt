//! What is found for the words of a command, before anything is written.
ghost use Rattle.std.specs.Prelude.{◌≡◌, IfOk, IfErr};
ghost use Rattle.sn_run.specs.Found.{IsFoundFor, found_status};
ghost use Rattle.sn_run.specs.Outcome.{Explains, ReadsOnce};

use crate::compile::{Planned, compile};
use crate::generated::generated_text;
use crate::report::{report, report_generated};
use crate::status::Status;
use crate::verify::verify;
use sn_io::Files;
use sn_message::Refusal;
use sn_open::Verdict;
use sn_p21::Bytes;
use sn_report::Counts;
use sn_words::laws::one_meaning;
use sn_words::{Command, Words, values};
use std::alloc::Global;

/// What was found for a command: the job and the moves of the program to write, the verdict or the counts to tell, or the text of
/// the part that was generated.
#[derive(Drop)]
pub enum Found {
    Plan(Planned),
    Verdict(Verdict),
    Counts(Counts),
    Part(Bytes),
}

impl Found {
    /// The status of a command whose answer was written.
    pub fn status(&self) -> Status
        ensures { result ≡ found_status self.now }
    {
        match self {
            Found::Verdict(verdict) => Status::of_verdict(*verdict),
            Found::Plan(_) | Found::Counts(_) | Found::Part(_) => Status::Done,
        }
    }
}

/// Finds what the words ask for, or why there is none.
pub fn find<F: Files>(alloc: Global, words: &Words, files: &mut F) -> Result<Found, Refusal>
    ensures found { IfOk result (IsFoundFor words.now (F.state files.old)) }
    ensures explains { IfErr result (Explains words.now (F.state files.old) (F.state files.new)) }
    ensures reads_once { ReadsOnce words.now (F.state files.old) (F.state files.new) }
{
    one_meaning();
    let opts = values(alloc, words)?;
    match opts.command {
        Command::Compile => {
            let part = opts.files.get(0);
            let planned = compile(alloc, files, part, &opts)?;
            Ok(Found::Plan(planned))
        }
        Command::Verify => {
            let part = opts.files.get(0);
            let program = opts.files.get(1);
            let verdict = verify(alloc, files, part, program, &opts)?;
            Ok(Found::Verdict(verdict))
        }
        Command::Report => {
            let part = opts.files.get(0);
            let counts = report(alloc, files, part, &opts)?;
            Ok(Found::Counts(counts))
        }
        Command::Make => {
            let text = generated_text(alloc, opts.seed)?;
            Ok(Found::Part(text))
        }
        Command::Trial => {
            let counts = report_generated(alloc, &opts)?;
            Ok(Found::Counts(counts))
        }
    }
}
