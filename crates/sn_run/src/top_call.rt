//! The top call.
ghost use Rattle.std.specs.Prelude.{◌≡◌, ◌≢◌, ◌+◌, ◌<◌, ◌⊎◌, ◌↔◌, List, ℕ, IsTrue};
ghost use Rattle.sn_io.specs.Count.{Rises};
ghost use Rattle.sn_io.specs.Sink.{Takes, TakesFront, Writes};
ghost use Rattle.sn_message.specs.RefusalText.{refusal_text};
ghost use Rattle.sn_open.specs.Good.{Good};
ghost use Rattle.sn_outline.specs.Job.{Job as JobContent};
ghost use Rattle.sn_run.specs.Answer.{generated_text};
ghost use Rattle.sn_run.specs.Command.{AsksFor, AsksForCounts, IsMake};
ghost use Rattle.sn_run.specs.Found.{CanBeWritten, found_status, found_text};
ghost use Rattle.sn_run.specs.Outcome.{Answers, Approves, Compiles, Ends, IsCaseOf, IsComplete, IsFaultless, IsJobOf, IsKnown, IsOfDevices, IsOfProgram, ReadsOnce, Refuses, Rejects, Reports, Stops, status_of};

use crate::find::{Found, find};
use crate::judge::sound_or_refused;
use crate::laws::outcome::one_case;
use crate::status::Status;
use sn_io::{CountSink, Files, Sink, SteadyFiles, WriteFault, write_all};
use sn_message::{Refusal, write_refusal, write_verdict};
use sn_open::verdict_laws::verdicts;
use sn_program::write_program;
use sn_report::summary;
use sn_words::laws::one_meaning;
use sn_words::{Command, Words};
use std::alloc::Global;

/// Carries out the command that the words are: reads from the files, and writes a program, a verdict, counts or a part to `out`, or
/// a refusal to `err`.
pub fn run<F: Files, S: Sink, E: Sink>(
    alloc: Global,
    words: &Words,
    files: &mut F,
    out: &mut S,
    err: &mut E,
) -> Status
    // Memory and devices apart, the status and the texts are those of the outcome.
    ensures outcome { IsKnown words.now (F.state files.old) → ¬ IsOfDevices result
        → Ends words.now (F.state files.old).given result
        (S.state out.old) (S.state out.new) (E.state err.old) (E.state err.new) }

    // What was written is the program of the part's job, and it is good for that job.
    ensures compiles { result ≡ Status.Done → AsksFor words.now Command.Compile
        → Compiles words.now (F.state files.old) (S.state out.old) (S.state out.new) }

    // A yes is told of a program that is good for the part's job, and a no of one that is not.
    ensures approves { result ≡ Status.Done → AsksFor words.now Command.Verify
        → Approves words.now (F.state files.old) (S.state out.old) (S.state out.new) }
    ensures rejects { result ≡ Status.No → Rejects words.now (F.state files.old) (S.state out.old) (S.state out.new) }

    // The counts that were told are those of the part's job, and a part that was written is the one of the seed.
    ensures reports { result ≡ Status.Done → AsksForCounts words.now
        → Reports words.now (F.state files.old) (S.state out.old) (S.state out.new) }
    ensures makes { result ≡ Status.Done → (seed : ℕ) → IsMake words.now seed
        → Takes (S.state out.old) (S.state out.new) (generated_text seed) }

    // Done and No come with the answer alone.
    ensures answers { (result ≡ Status.Done) ⊎ (result ≡ Status.No)
        → Answers words.now (F.state files.old) result
        (S.state out.old) (S.state out.new) (E.state err.old) (E.state err.new) }

    // A part that is compiled has its program written or its counts told, a program for a sound part is judged, and a part is
    // generated, unless memory is wanting or a device fails.
    ensures completes { IsKnown words.now (F.state files.old) → (job : JobContent)
        → IsJobOf words.now (F.state files.old).given job → (result ≡ Status.Done) ⊎ IsOfDevices result }
    ensures judges { IsTrue (F.state files.old).tells → (job : JobContent) (program : List ℕ)
        → IsCaseOf words.now (F.state files.old).given job program
        → ((result ≡ Status.Done) ⊎ (result ≡ Status.No)) ⊎ IsOfDevices result }
    ensures exactly { IsTrue (F.state files.old).tells → (job : JobContent) (program : List ℕ)
        → IsCaseOf words.now (F.state files.old).given job program → ¬ IsOfDevices result
        → (result ≡ Status.Done) ↔ Good job program }
    ensures generates { AsksFor words.now Command.Make → (result ≡ Status.Done) ⊎ IsOfDevices result }

    // Where no count of faults rose, what the words ask for is given, memory apart.
    ensures complete { IsFaultless (F.state files.old) (F.state files.new) (S.state out.old) (S.state out.new) (E.state err.old) (E.state err.new)
        → IsComplete words.now (F.state files.old) result (S.state out.old) (S.state out.new) (E.state err.old) (E.state err.new) }

    // Once the program was opened, memory is not wanting any more: a program that is not too long is judged, unless a device fails.
    ensures opened { (F.state files.old).opens + 1 < (F.state files.new).opens → IsOfProgram result }
    ensures judged { (F.state files.old).opens + 1 < (F.state files.new).opens → IsTrue (F.state files.old).tells
        → (job : JobContent) (program : List ℕ) → IsCaseOf words.now (F.state files.old).given job program
        → ((result ≡ Status.Done) ⊎ (result ≡ Status.No)) ⊎ ((result ≡ Status.ReadFault) ⊎ (result ≡ Status.WriteFault)) }

    // Each refusal has its cause, and is told.
    ensures refused { result ≢ Status.Done → result ≢ Status.No → result ≢ Status.WriteFault
        → Refuses words.now (F.state files.old) (F.state files.new) result
        (S.state out.old) (S.state out.new) (E.state err.old) (E.state err.new) }

    // A write that failed has its cause, and stopped a text that was to be written.
    ensures write_fault { result ≡ Status.WriteFault
        → (Rises (S.state out.old).faults (S.state out.new).faults)
        ⊎ (Rises (E.state err.old).faults (E.state err.new).faults) }
    ensures stopped { result ≡ Status.WriteFault
        → Stops words.now (F.state files.old) (F.state files.new)
        (S.state out.old) (S.state out.new) (E.state err.old) (E.state err.new) }

    ensures reads_once { ReadsOnce words.now (F.state files.old) (F.state files.new) }
{
    sound_or_refused();
    one_meaning();
    verdicts();
    one_case();
    match find(alloc, words, files) {
        Ok(found) => write(out, &found),
        Err(refusal) => refuse(err, refusal),
    }
}

/// Carries out the command over files and sinks that never fail: neither a reading nor a writing fails.
pub fn run_steadily(
    alloc: Global,
    words: &Words,
    files: &mut SteadyFiles<'_>,
    out: &mut CountSink,
    err: &mut CountSink,
) -> Status
    ensures no_read_fault { result ≢ Status.ReadFault }
    ensures no_write_fault { result ≢ Status.WriteFault }
{
    run(alloc, words, files, out, err)
}

/// Writes the text of what was found, and gives its status.
fn write<S: Sink>(out: &mut S, found: &Found) -> Status
    requires { CanBeWritten found.now }
    ensures either { (result ≡ found_status found.now) ⊎ (result ≡ Status.WriteFault) }
    ensures done { result ≢ Status.WriteFault
        → (result ≡ found_status found.now) × Takes (S.state out.old) (S.state out.new) (found_text found.now) }
    ensures stopped { result ≡ Status.WriteFault → TakesFront (S.state out.old) (S.state out.new) (found_text found.now) }
{
    match write_text(out, found) {
        Ok(()) => found.status(),
        Err(WriteFault) => Status::WriteFault,
    }
}

fn write_text<S: Sink>(out: &mut S, found: &Found) -> Result<(), WriteFault>
    requires { CanBeWritten found.now }
    ensures { Writes result (S.state out.old) (S.state out.new) (found_text found.now) }
{
    match found {
        Found::Plan(planned) => write_program(out, &planned.job, planned.moves.as_slice()),
        Found::Verdict(verdict) => write_verdict(out, *verdict),
        Found::Counts(counts) => summary(out, counts),
        Found::Part(text) => write_all(out, text.as_slice()),
    }
}

/// Writes the text of a refusal to the errors, and gives its status.
fn refuse<E: Sink>(err: &mut E, refusal: Refusal) -> Status
    ensures either { (result ≡ status_of refusal) ⊎ (result ≡ Status.WriteFault) }
    ensures told { result ≢ Status.WriteFault → (result ≡ status_of refusal) × Takes (E.state err.old) (E.state err.new) (refusal_text refusal) }
    ensures stopped { result ≡ Status.WriteFault → TakesFront (E.state err.old) (E.state err.new) (refusal_text refusal) }
{
    match write_refusal(err, refusal) {
        Ok(()) => Status::of_refusal(refusal),
        Err(WriteFault) => Status::WriteFault,
    }
}
