//! The job of a sound model.
ghost use Rattle.std.specs.Prelude.{◌≡◌, ◌⊎◌, ◌≤◌, ℕ, length, Err, IfOk, IfSome};
ghost use Rattle.std.specs.List.{Contains};
ghost use Rattle.sn_entity.specs.declared.row.Group.TheVariants.{One as OneRow};
ghost use Rattle.sn_entity.specs.declared.row.RowId.TheVariants.{MachiningWorkingstep};
ghost use Rattle.sn_outline.specs.declared.limits.TheConstants.{MOST_STEPS};
ghost use Rattle.sn_outline.specs.JobRule.{IsSecurityHeight};
ghost use Rattle.sn_refs.specs.Target.{IsTarget};
ghost use Rattle.sn_words.specs.Options.{IsBox};
ghost use Rattle.sn_walk.specs.Walk.{executed_of};
ghost use Rattle.sn_flow.specs.JobOf.{job_with, job_of};
ghost use Rattle.sn_flow.specs.PartsRule.{KeepPartsRule};

use crate::fault::JobFault;
use crate::laws::steps_keep_rule;
use crate::parts::all_parts;
use crate::raw::{raw_box, workpiece_frame};
use crate::security::{not_below, security_height};
use crate::steps::{steps_of, tools_of};
use sn_feature::StepParts;
use sn_geom::Um;
use sn_outline::{Job, Numbers};
use sn_refs::Checked;
use sn_walk::{WalkFault, executed};
use sn_words::{Opts, RawBox};
use std::alloc::{AllocError, Global};

/// The job of a sound model under the words of a command: what the executed steps of the main workplan cut, in the frame of
/// the setup. All lengths are tenths of a micrometre.
///
/// It is refused with the first fault in this order: those of the walk; that of the workpiece's placement; those of the raw
/// box; a security height below the raw top; and for each executed step in order the placements, points and heights that are
/// at fault, a floor above the top, a bad outline, a wrong tool, and a short tool. The faults of grids come from grids alone.
pub fn job(alloc: Global, c: &Checked, o: &Opts) -> Result<Job, JobFault>
    ensures { (result ≡ Err JobFault.Memory) ⊎ (result ≡ job_of c.now o.now) }
{
    let executed = executed_steps(alloc, c, o)?;
    let steps = executed.as_slice();
    let frame = workpiece_frame(c)?;
    let raw = raw_box(c, given_box(o), &frame)?;
    let raw_top = top_of(&raw);
    let sec = not_below(raw_top, security_height(c, steps, raw_top))?;
    let parts = all_parts(alloc, c, &frame, raw_top, steps)?;
    Ok(job_of_parts(alloc, o, &raw, sec, parts)?)
}

/// The workingsteps that are executed.
fn executed_steps(alloc: Global, c: &Checked, o: &Opts) -> Result<Numbers, WalkFault>
    ensures exact { (result ≡ executed_of c.now o.now.sets) ⊎ (result ≡ Err WalkFault.Memory) }
    ensures steps { IfOk result (λ steps. (n : ℕ) → Contains steps n → IsTarget c.now (OneRow MachiningWorkingstep) n) }
    ensures short { IfOk result (λ steps. length steps ≤ MOST_STEPS) }
{
    executed(alloc, c, o.sets.as_slice())
}

/// The raw box that is given, if one is.
fn given_box(o: &Opts) -> Option<RawBox>
    ensures value { result ≡ o.now.raw }
    ensures corners { IfSome result IsBox }
{
    o.raw
}

/// The raw top.
fn top_of(raw: &RawBox) -> Um
    ensures { result ≡ raw.now.high.z }
{
    raw.high.z
}

/// The job of the parts of all executed steps.
fn job_of_parts(
    alloc: Global,
    o: &Opts,
    raw: &RawBox,
    sec: Um,
    parts: Vec<StepParts>,
) -> Result<Job, AllocError>
    requires corners { IsBox raw.now }
    requires height { IsSecurityHeight sec raw.now.high.z }
    requires rule { KeepPartsRule parts.items }
    ensures { IfOk result (λ job. job ≡ job_with o.now raw.now sec parts.items) }
{
    steps_keep_rule();
    let tools = tools_of(alloc, parts.as_slice())?;
    let steps = steps_of(alloc, parts, tools.as_slice())?;
    match Job::new(o.pitch, raw.low, raw.high, sec.get(), steps, tools) {
        Some(job) => Ok(job),
        None => unreachable!(),
    }
}
