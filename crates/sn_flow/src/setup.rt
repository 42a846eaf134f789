//! The workpiece, and what bounds its raw material.
ghost use Rattle.std.specs.Prelude.{◌≡◌, ℕ, nat_eq, IfSome};
ghost use Rattle.std.specs.List.{Contains, find};
ghost use Rattle.sn_entity.specs.declared.row.Group.TheVariants.{One as OneRow};
ghost use Rattle.sn_entity.specs.declared.row.RowId.TheVariants.{Axis2Placement3d, Block, Workpiece, WorkpieceSetup};
ghost use Rattle.sn_refs.specs.Target.{IsTarget};
ghost use Rattle.sn_feature.specs.Entities.{named};
ghost use Rattle.sn_flow.specs.Setup.{workpiece_of, workpiece_setup_of, origin_of, block_of, raw_block_of, raw_block as raw_block_in};

use sn_model::project_has_row;
use sn_refs::Checked;
use sn_refs::laws::named_are_targets;
use sn_walk::main_setup;

/// The first workpiece of the project's list, if it has one.
fn workpiece(c: &Checked) -> Option<u32>
    ensures value { result ≡ workpiece_of c.now }
    ensures target { IfSome result (λ n. IsTarget c.now (OneRow Workpiece) n) }
{
    c.rule();
    project_has_row();
    c.many(c.project(), 1).first().copied()
}

/// The placement of the workpiece in the setup, if it has one.
pub(crate) fn origin(c: &Checked) -> Option<u32>
    ensures value { result ≡ origin_of c.now }
    ensures target { IfSome result (λ n. IsTarget c.now (OneRow Axis2Placement3d) n) }
{
    let workpiece = workpiece(c)?;
    let setting = workpiece_setup(c, workpiece)?;
    Some(c.one(setting, 1))
}

/// The first of the setup's WORKPIECE_SETUPs that names the workpiece.
fn workpiece_setup(c: &Checked, workpiece: u32) -> Option<u32>
    ensures value { result ≡ workpiece_setup_of c.now workpiece }
    ensures target { IfSome result (λ n. IsTarget c.now (OneRow WorkpieceSetup) n) }
{
    let setup = main_setup(c)?;
    first_naming(c, c.many(setup, 1), workpiece)
}

/// The first of these WORKPIECE_SETUPs that names the workpiece.
fn first_naming(c: &Checked, settings: &[u32], workpiece: u32) -> Option<u32>
    requires { (n : ℕ) → Contains settings.now n → IsTarget c.now (OneRow WorkpieceSetup) n }
    ensures value { result ≡ find (λ n. nat_eq (named c.now n 0) workpiece) settings.now }
    ensures target { IfSome result (λ n. IsTarget c.now (OneRow WorkpieceSetup) n) }
{
    for setting in settings {
        if names(c, *setting, workpiece) {
            return Some(*setting);
        }
    }
    None
}

/// Whether a WORKPIECE_SETUP names the workpiece.
fn names(c: &Checked, setting: u32, workpiece: u32) -> bool
    requires { IsTarget c.now (OneRow WorkpieceSetup) setting }
    ensures { result ≡ nat_eq (named c.now setting 0) workpiece }
{
    c.one(setting, 0) == workpiece
}

/// The BLOCK that bounds a workpiece, if one does.
fn block(c: &Checked, workpiece: u32) -> Option<u32>
    requires { IsTarget c.now (OneRow Workpiece) workpiece }
    ensures value { result ≡ block_of c.now workpiece }
    ensures target { IfSome result (λ n. IsTarget c.now (OneRow Block) n) }
{
    c.rule();
    named_are_targets();
    let bound = c.fields(workpiece).one(1)?;
    if c.names_block(bound) {
        Some(bound)
    } else {
        None
    }
}

/// The BLOCK that bounds a workpiece's rawpiece, and else its own.
fn block_of_raw(c: &Checked, workpiece: u32) -> Option<u32>
    requires { IsTarget c.now (OneRow Workpiece) workpiece }
    ensures value { result ≡ raw_block_of c.now workpiece }
    ensures target { IfSome result (λ n. IsTarget c.now (OneRow Block) n) }
{
    if let Some(rawpiece) = c.maybe_one(workpiece, 0) {
        if let Some(bound) = block(c, rawpiece) {
            return Some(bound);
        }
    }
    block(c, workpiece)
}

/// The BLOCK that bounds the raw material, if there is one.
pub(crate) fn raw_block(c: &Checked) -> Option<u32>
    ensures value { result ≡ raw_block_in c.now }
    ensures target { IfSome result (λ n. IsTarget c.now (OneRow Block) n) }
{
    block_of_raw(c, workpiece(c)?)
}
