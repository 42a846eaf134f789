//! The verdict on a program for a part.
ghost use Rattle.std.specs.Prelude.{IfOk, IfErr};
ghost use Rattle.sn_run.specs.Found.{IsRefusedCase, IsVerdictOf, ReadsBoth};

use crate::loading::load;
use crate::prepare::grid_of;
use crate::program_reading::check_program;
use sn_io::Files;
use sn_message::Refusal;
use sn_open::Verdict;
use sn_sweep::Checker;
use sn_words::Opts;
use std::alloc::Global;

/// The verdict on the program of a name for the part of another, or why none is given.
///
/// All memory is taken before the program is opened.
pub fn verify<F: Files>(
    alloc: Global,
    files: &mut F,
    part: &[u8],
    program: &[u8],
    opts: &Opts,
) -> Result<Verdict, Refusal>
    ensures verdict { IfOk result (IsVerdictOf (F.state files.old) part.now program.now opts.now) }
    ensures refused { IfErr result (IsRefusedCase (F.state files.old) (F.state files.new) part.now program.now opts.now) }
    ensures reads { ReadsBoth (F.state files.old) (F.state files.new) part.now program.now }
{
    let job = load(alloc, files, part, opts)?;
    job.rule();
    let grid = grid_of(&job);
    let mut checker = Checker::begin(alloc, &job, &grid)?;
    check_program(files, program, &mut checker)
}
