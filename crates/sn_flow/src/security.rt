//! The security height.
ghost use Rattle.std.specs.Prelude.{◌≡◌, ℕ, int_lt, Some, Ok, Err, if◌then◌else◌};
ghost use Rattle.std.specs.List.{Contains};
ghost use Rattle.sn_entity.specs.declared.row.Group.TheVariants.{One as OneRow};
ghost use Rattle.sn_entity.specs.declared.row.RowId.TheVariants.{MachiningWorkingstep};
ghost use Rattle.sn_refs.specs.Target.{IsTarget};
ghost use Rattle.sn_walk.specs.Node.{main_setup as main_setup_of};
ghost use Rattle.sn_flow.specs.Setup.{setup_security as security_of_setup, security_height as security_height_of};
ghost use Rattle.sn_flow.specs.JobOf.{not_below as height_if_safe};
ghost use Rattle.sn_flow.specs.Gathered.{higher_of};

use crate::fault::JobFault;
use sn_feature::{plane_height, security_of};
use sn_geom::Um;
use sn_refs::Checked;
use sn_walk::main_setup;

/// The security height over these executed steps: the greatest height of the security planes of the main setup and of the
/// steps, and the raw top where there is none.
pub(crate) fn security_height(c: &Checked, steps: &[u32], raw_top: Um) -> Um
    requires { (ws : ℕ) → Contains steps.now ws → IsTarget c.now (OneRow MachiningWorkingstep) ws }
    ensures { result ≡ security_height_of c.now steps.now raw_top }
{
    let mut highest = setup_security(c);
    for ws in steps {
        highest = Some(higher(highest, security_of(c, *ws)));
    }
    highest.unwrap_or(raw_top)
}

/// The height of the security plane of the main setup, if it has one.
fn setup_security(c: &Checked) -> Option<Um>
    ensures { result ≡ security_of_setup c.now (main_setup_of c.now) }
{
    let setup = main_setup(c)?;
    let plane = c.maybe_one(setup, 0)?;
    Some(plane_height(c, plane))
}

/// The higher of a height and the highest before.
fn higher(highest: Option<Um>, height: Um) -> Um
    ensures { result ≡ higher_of highest height }
{
    match highest {
        Some(before) => {
            if height.get() < before.get() {
                before
            } else {
                height
            }
        }
        None => height,
    }
}

/// A height, where it is not below the raw top.
pub(crate) fn not_below(raw_top: Um, height: Um) -> Result<Um, JobFault>
    ensures { result ≡ height_if_safe raw_top height }
{
    if height.get() < raw_top.get() {
        Err(JobFault::SecLow)
    } else {
        Ok(height)
    }
}
