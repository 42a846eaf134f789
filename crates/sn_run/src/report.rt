//! The counts of a part.
ghost use Rattle.std.specs.Prelude.{◌+◌, IfOk, IfErr};
ghost use Rattle.sn_report.specs.JobCounts.{AreCountsOf};
ghost use Rattle.sn_run.specs.Answer.{generated_text};
ghost use Rattle.sn_run.specs.Found.{AreCountsWith, IsGoodPlan, IsMemoryOr};
ghost use Rattle.sn_run.specs.Outcome.{IsReadOf, IsRefusedFile};
ghost use Rattle.sn_run.specs.Part.{IsCompiledPart, IsUncompiledPart};
ghost use Rattle.sn_run.specs.Reading.{ReadsFile};

use crate::compile::{Planned, compile, compile_generated};
use crate::prepare::grid_of;
use crate::reading::LONGEST;
use sn_geom::Memory;
use sn_io::Files;
use sn_message::Refusal;
use sn_report::{Counts, job_counts};
use sn_words::Opts;
use std::alloc::Global;

/// The counts of the part of a name, or why no program is written for it.
pub fn report<F: Files>(
    alloc: Global,
    files: &mut F,
    name: &[u8],
    opts: &Opts,
) -> Result<Counts, Refusal>
    ensures counts { IfOk result (AreCountsWith (λ job. IsReadOf (F.state files.old) name.now (λ bytes. IsCompiledPart bytes opts.now job))) }
    ensures refused { IfErr result (IsRefusedFile (F.state files.old) (F.state files.new) name.now (λ bytes. IsUncompiledPart bytes opts.now)) }
    ensures reads { ReadsFile (F.state files.old) (F.state files.new) name.now (LONGEST + 1) }
{
    let planned = compile(alloc, files, name, opts)?;
    Ok(counts_of(alloc, &planned)?)
}

/// The counts of the part that is generated from the seed of the options, or why no program is written for it.
pub fn report_generated(alloc: Global, opts: &Opts) -> Result<Counts, Refusal>
    ensures counts { IfOk result (AreCountsWith (IsCompiledPart (generated_text opts.now.seed) opts.now)) }
    ensures refused { IfErr result (IsMemoryOr (IsUncompiledPart (generated_text opts.now.seed) opts.now)) }
{
    let planned = compile_generated(alloc, opts)?;
    Ok(counts_of(alloc, &planned)?)
}

/// The counts of a job with its moves.
fn counts_of(alloc: Global, planned: &Planned) -> Result<Counts, Memory>
    requires { IsGoodPlan planned.now }
    ensures { IfOk result (AreCountsOf planned.now.job) }
{
    let grid = grid_of(&planned.job);
    job_counts(alloc, &planned.job, &grid, planned.moves.as_slice())
}
