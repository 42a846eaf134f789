//! The plan of a part: its job, and the moves of its steps.
ghost use Rattle.std.specs.Prelude.{◌≡◌, ◌↔◌, ◌+◌, ◌<◌, IfOk, IfErr, IsTrue, length};
ghost use Rattle.sn_open.specs.Reach.{IsReachable};
ghost use Rattle.sn_raster.specs.Grid.{FitsGrid};
ghost use Rattle.sn_program.specs.Text.{program_text};
ghost use Rattle.sn_run.specs.Answer.{generated_text};
ghost use Rattle.sn_run.specs.Found.{IsGoodPlan, IsMemoryOr, IsPlannedFor, LeavesUncompiled, plan_of};
ghost use Rattle.sn_run.specs.Outcome.{IsReadOf, IsRefusedFile};
ghost use Rattle.sn_run.specs.Part.{IsCompiledPart, IsUncompiledPart};
ghost use Rattle.sn_run.specs.Reading.{ReadsFile};

use crate::generated::generated_text;
use crate::judge::{judge, look_at_reach};
use crate::loading::load;
use crate::prepare::grid_of;
use crate::reading::LONGEST;
use sn_geom::Memory;
use sn_io::laws::counting;
use sn_io::{CountSink, Files};
use sn_link::laws::plans;
use sn_link::{Plans, plan};
use sn_message::Refusal;
use sn_outline::Job;
use sn_program::laws::good::goods;
use sn_program::{instance_numbers, write_program};
use sn_words::Opts;
use std::alloc::Global;

/// A job with what is planned of its steps, in the order of the steps.
#[derive(Drop)]
pub struct Planned {
    pub job: Job,
    pub moves: Plans,
}

/// The job and the moves of the part of a name, or why no program is written for it.
pub fn compile<F: Files>(
    alloc: Global,
    files: &mut F,
    name: &[u8],
    opts: &Opts,
) -> Result<Planned, Refusal>
    ensures compiled { IfOk result (λ planned. IsReadOf (F.state files.old) name.now (λ bytes. IsCompiledPart bytes opts.now planned.job)) }
    ensures good { IfOk result IsGoodPlan }
    ensures refused { IfErr result (IsRefusedFile (F.state files.old) (F.state files.new) name.now (λ bytes. IsUncompiledPart bytes opts.now)) }
    ensures reads { ReadsFile (F.state files.old) (F.state files.new) name.now (LONGEST + 1) }
{
    let job = load(alloc, files, name, opts)?;
    plan_job(alloc, job)
}

/// The job and the moves of the part that is generated from the seed of the options, or why no program is written for it.
pub fn compile_generated(alloc: Global, opts: &Opts) -> Result<Planned, Refusal>
    ensures compiled { IfOk result (λ planned. IsCompiledPart (generated_text opts.now.seed) opts.now planned.job) }
    ensures good { IfOk result IsGoodPlan }
    ensures refused { IfErr result (IsMemoryOr (IsUncompiledPart (generated_text opts.now.seed) opts.now)) }
{
    let text = generated_text(alloc, opts.seed)?;
    let job = judge(alloc, text.as_slice(), opts)?;
    plan_job(alloc, job)
}

/// The job of a sound part with its moves, or why no program is written for the part.
fn plan_job(alloc: Global, job: Job) -> Result<Planned, Refusal>
    requires { FitsGrid job }
    ensures planned { IfOk result (IsPlannedFor job) }
    ensures good { IfOk result IsGoodPlan }
    ensures refused { IfErr result (IsMemoryOr (LeavesUncompiled job)) }
{
    plans();
    look_at_reach(alloc, &job)?;
    let planned = with_plan(alloc, job)?;
    if is_too_long(&planned) {
        return Err(Refusal::TooLong);
    }
    Ok(planned)
}

/// The job with the moves of its steps.
fn with_plan(alloc: Global, job: Job) -> Result<Planned, Memory>
    requires fits { FitsGrid job }
    requires reachable { IsReachable job }
    ensures same { IfOk result (λ planned. planned.job ≡ job) }
    ensures good { IfOk result IsGoodPlan }
{
    job.rule();
    instance_numbers(&job);
    goods();
    let moves = plan(alloc, &job, &grid_of(&job))?;
    Ok(Planned { job, moves })
}

/// Whether the program has more bytes than may be written: it is written to a sink that counts them.
fn is_too_long(planned: &Planned) -> bool
    requires { IsGoodPlan planned.now }
    ensures { IsTrue result ↔ (LONGEST < length (program_text planned.now.job (plan_of planned.now))) }
{
    counting();
    let mut sink = CountSink::new();
    let Ok(()) = write_program(&mut sink, &planned.job, planned.moves.as_slice()) else {
        unreachable!()
    };
    sink.taken() > LONGEST as u64
}
