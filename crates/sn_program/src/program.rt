//! Writing the program of a job.
ghost use Rattle.std.specs.Prelude.{◌≡◌, OnOk, None, Some, length};
ghost use Rattle.sn_io.specs.Sink.{Writes};
ghost use Rattle.sn_gwrite.specs.Kept.{IsBegun, IsTurning, begun, unused};
ghost use Rattle.sn_link.specs.Moves.{tip_after_step, tip_for, tool_after};
ghost use Rattle.sn_link.specs.Counts.{moves_of};
ghost use Rattle.sn_link.specs.Plan.{with_moves};
ghost use Rattle.sn_program.specs.PlanActs.{AreWritable, IsNumbered, IsWritable, IsWritableProgram};
ghost use Rattle.sn_program.specs.Text.{program_text, setting_text, step_text, steps_text};

use crate::writer::write_moves;
use sn_geom::{Pt3, Tip, Um};
use sn_gwrite::Emitter;
use sn_io::{Sink, WriteFault};
use sn_link::{Move, PlannedStep};
use sn_outline::{Job, StepJob};

/// Writes the program of a job, with the moves of its steps in their order.
pub fn write_program<S: Sink>(
    sink: &mut S,
    job: &Job,
    plans: &[PlannedStep],
) -> Result<(), WriteFault>
    requires each { length plans.now ≡ length job.now.steps }
    requires writable { IsWritableProgram job.now (with_moves job.now.steps (moves_of plans.now)) }
    ensures { Writes result (S.state sink.old) (S.state sink.new) (program_text job.now (with_moves job.now.steps (moves_of plans.now))) }
{
    let mut emitter = Emitter::new();
    emitter.head(sink, job.tools())?;
    write_steps(&mut emitter, sink, job, plans)?;
    emitter.end(sink)
}

/// Writes the steps, each with its moves.
fn write_steps<S: Sink>(
    emitter: &mut Emitter,
    sink: &mut S,
    job: &Job,
    plans: &[PlannedStep],
) -> Result<(), WriteFault>
    requires head { emitter.old ≡ begun unused }
    requires each { length plans.now ≡ length job.now.steps }
    requires writable { AreWritable job.now None Tip.Unknown (with_moves job.now.steps (moves_of plans.now)) }
    ensures writes { Writes result (S.state sink.old) (S.state sink.new) (steps_text job.now None Tip.Unknown (with_moves job.now.steps (moves_of plans.now))) }
    ensures begun { OnOk result (IsBegun emitter.new) }
{
    let mut tool = None;
    for (step, planned) in job.steps().iter().zip(plans) {
        let moves = planned.moves.as_slice();
        write_step(emitter, sink, job, tool, step, moves)?;
        tool = tool_left(tool, step, moves);
    }
    Ok(())
}

/// The tool in the spindle after a step: a step without moves leaves the one that is there.
fn tool_left(tool: Option<u32>, step: &StepJob, moves: &[Move]) -> Option<u32>
    ensures { result ≡ tool_after tool step.now moves.now }
{
    if moves.is_empty() {
        tool
    } else {
        Some(step.tool)
    }
}

/// Writes a step: its mark, and nothing more where it has no moves.
fn write_step<S: Sink>(
    emitter: &mut Emitter,
    sink: &mut S,
    job: &Job,
    tool: Option<u32>,
    step: &StepJob,
    moves: &[Move],
) -> Result<(), WriteFault>
    requires begun { IsBegun emitter.old }
    requires tool { tool ≡ emitter.old.tool }
    requires writable { IsWritable job.now tool emitter.old.tip step.now moves.now }
    ensures writes { Writes result (S.state sink.old) (S.state sink.new) (step_text job.now tool emitter.old.tip step.now moves.now) }
    ensures begun { OnOk result (IsBegun emitter.new) }
    ensures tool { OnOk result (emitter.new.tool ≡ tool_after tool step.now moves.now) }
    ensures tip { OnOk result (emitter.new.tip ≡ tip_after_step job.now tool emitter.old.tip step.now moves.now) }
{
    emitter.mark(sink, step.ws)?;
    let Some(first) = moves.first() else {
        return Ok(());
    };
    write_setting(emitter, sink, job, tool, step, &first.end())?;
    write_moves(emitter, sink, moves)
}

/// Writes what comes before the moves of a step: its rates, and where its tool is not in the spindle, the tool change before
/// them and behind them the rapid to the security height, over the place where the first move ends.
fn write_setting<S: Sink>(
    emitter: &mut Emitter,
    sink: &mut S,
    job: &Job,
    tool: Option<u32>,
    step: &StepJob,
    first: &Pt3,
) -> Result<(), WriteFault>
    requires begun { IsBegun emitter.old }
    requires tool { tool ≡ emitter.old.tool }
    requires numbered { IsNumbered step.now }
    ensures writes { Writes result (S.state sink.old) (S.state sink.new) (setting_text job.now tool step.now) }
    ensures begun { OnOk result (IsBegun emitter.new) }
    ensures tool { OnOk result (emitter.new.tool ≡ Some step.now.tool) }
    ensures turning { OnOk result (IsTurning emitter.new) }
    ensures tip { OnOk result (emitter.new.tip ≡ tip_for job.now tool emitter.old.tip step.now) }
{
    if tool == Some(step.tool) {
        return emitter.rates(sink, step.speed, step.feed);
    }
    emitter.change_tool(sink, step.tool)?;
    emitter.rates(sink, step.speed, step.feed)?;
    emitter.rapid(sink, &at_security(job, first))
}

/// The point at the security height over a place.
fn at_security(job: &Job, place: &Pt3) -> Pt3
    ensures { result.z ≡ job.now.sec }
{
    job.rule();
    Pt3 {
        x: place.x,
        y: place.y,
        z: Um::of(job.sec()),
    }
}
