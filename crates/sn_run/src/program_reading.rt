//! Reading the program's file piece by piece, for the verdict on it.
ghost use Rattle.std.specs.Prelude.{◌≡◌, ◌+◌, ◌≤◌, ◌<◌, ◌^◌, List, ℕ, [], length, IsTrue, IfOk, IfErr, OnErr};
ghost use Rattle.sn_io.specs.Count.{Rises};
ghost use Rattle.sn_io.specs.Files.{Reads};
ghost use Rattle.sn_open.specs.Verdict.{IsVerdict};
ghost use Rattle.sn_outline.specs.Job.{Job as JobContent};
ghost use Rattle.sn_sweep.specs.Checking.{HasTaken};
ghost use Rattle.sn_run.specs.Outcome.{IsReadOf};
ghost use Rattle.sn_run.specs.Reading.{FeedsNext, IsUnreadProgram, ReadsFile, TakesAtMost};

use crate::reading::{CHUNK, LONGEST_PROGRAM};
use sn_io::{Failed, Files};
use sn_message::Refusal;
use sn_open::Verdict;
use sn_sweep::Checker;

/// The verdict on the program of a name, by a checker that has taken nothing yet.
///
/// The program is read to its end, behind its first line at fault too, or until `LONGEST_PROGRAM + 1` bytes were taken. No
/// memory is taken.
pub fn check_program<F: Files>(
    files: &mut F,
    name: &[u8],
    checker: &mut Checker,
) -> Result<Verdict, Refusal>
    requires { checker.old.lines ≡ 0 }
    ensures verdict { IfOk result (λ verdict. (job : JobContent) → HasTaken job [] checker.old
        → IsReadOf (F.state files.old) name.now (λ program. (length program ≤ LONGEST_PROGRAM) × IsVerdict job program verdict)) }
    ensures unread { IfErr result (IsUnreadProgram (F.state files.old) (F.state files.new) name.now) }
    ensures reads { ReadsFile (F.state files.old) (F.state files.new) name.now (LONGEST_PROGRAM + 1) }
{
    files.open(name)?;
    let mut chunk = [0; CHUNK];
    let mut taken = 0;
    while taken <= LONGEST_PROGRAM {
        let room = CHUNK.min(LONGEST_PROGRAM + 1 - taken);
        let count = feed_next(files, checker, &mut chunk[..room])?;
        if count == 0 {
            return Ok(checker.finish());
        }
        taken += count;
    }
    Err(Refusal::TooLong)
}

/// Feeds the next bytes of the open file to the checker, at most as many as the buffer holds.
fn feed_next<F: Files>(
    files: &mut F,
    checker: &mut Checker,
    buffer: &mut [u8],
) -> Result<usize, Failed>
    requires is_open { IsTrue (F.state files.old).is_open }
    requires some { 0 < length buffer.old }
    requires room { checker.old.lines + length buffer.old < 2 ^ 63 }
    ensures reads { Reads (F.state files.old) (F.state files.new) }
    ensures takes { TakesAtMost (F.state files.old) (F.state files.new) (length buffer.old) }
    ensures within { IfOk result (λ count. count ≤ length buffer.old) }
    ensures feeds { IfOk result (FeedsNext (F.state files.old) (F.state files.new) checker.old checker.new) }
    ensures fault { OnErr result (Rises (F.state files.old).faults (F.state files.new).faults) }
{
    let count = files.read(buffer)?;
    checker.feed(&buffer[..count]);
    Ok(count)
}
