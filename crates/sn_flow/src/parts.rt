//! The parts of all executed steps.
ghost use Rattle.std.specs.Prelude.{◌≡◌, ◌≢◌, ◌⊎◌, ◌≤◌, [], ◌∷◌, ◌++◌, ℕ, length, Ok, Err, IfOk, IfErr, OnOk};
ghost use Rattle.std.specs.List.{Contains};
ghost use Rattle.sn_entity.specs.declared.row.Group.TheVariants.{One as OneRow};
ghost use Rattle.sn_entity.specs.declared.row.RowId.TheVariants.{MachiningWorkingstep};
ghost use Rattle.sn_outline.specs.declared.limits.TheConstants.{MOST_STEPS};
ghost use Rattle.sn_refs.specs.Target.{IsTarget};
ghost use Rattle.sn_feature.specs.Step.{step_of};
ghost use Rattle.sn_feature.specs.StepRule.{AreProper, HasCorner};
ghost use Rattle.sn_flow.specs.JobOf.{all_parts as parts_of_all};
ghost use Rattle.sn_flow.specs.PartsRule.{KeepPartsRule};

use crate::fault::JobFault;
use crate::laws::parts_keep_rule;
use sn_feature::{StepFault, StepParts, step};
use sn_frame::Frame;
use sn_geom::Um;
use sn_refs::Checked;
use std::alloc::{AllocError, Global};

/// What the executed workingsteps give, in order, where the workpiece stands in this frame; or the first refusal.
pub(crate) fn all_parts(
    alloc: Global,
    c: &Checked,
    workpiece: &Frame,
    raw_top: Um,
    steps: &[u32],
) -> Result<Vec<StepParts>, JobFault>
    requires steps { (ws : ℕ) → Contains steps.now ws → IsTarget c.now (OneRow MachiningWorkingstep) ws }
    requires few { length steps.now ≤ MOST_STEPS }
    ensures found { IfOk result (λ parts. parts_of_all c.now workpiece.now raw_top steps.now ≡ Ok parts.items) }
    ensures refused { IfErr result (λ why. why ≢ JobFault.Memory → parts_of_all c.now workpiece.now raw_top steps.now ≡ Err why) }
    ensures rule { IfOk result (λ parts. KeepPartsRule parts.items) }
{
    parts_keep_rule();
    let mut parts = Vec::new(alloc);
    for ws in steps {
        match part_of(alloc, c, workpiece, raw_top, *ws) {
            Ok(part) => add(&mut parts, part)?,
            Err(fault) => return Err(JobFault::from(fault)),
        }
    }
    Ok(parts)
}

/// What a workingstep gives, where the workpiece stands in this frame.
fn part_of(
    alloc: Global,
    c: &Checked,
    workpiece: &Frame,
    raw_top: Um,
    ws: u32,
) -> Result<StepParts, StepFault>
    requires { IsTarget c.now (OneRow MachiningWorkingstep) ws }
    ensures answer { (result ≡ Err StepFault.Memory) ⊎ (result ≡ step_of c.now workpiece.now raw_top ws) }
    ensures proper { IfOk result AreProper }
    ensures corner { IfOk result HasCorner }
{
    step(alloc, c, workpiece, raw_top.get(), ws)
}

fn add(parts: &mut Vec<StepParts>, part: StepParts) -> Result<(), AllocError>
    ensures { OnOk result (parts.new.items ≡ parts.old.items ++ part ∷ []) }
{
    parts.push(part)?;
    Ok(())
}
