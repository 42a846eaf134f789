//! The main workplan of a project, and its setup.
ghost use Rattle.std.specs.Prelude.{◌≡◌, IfSome};
ghost use Rattle.sn_entity.specs.declared.row.Group.TheVariants.{One as OneRow};
ghost use Rattle.sn_entity.specs.declared.row.RowId.TheVariants.{Setup, Workplan};
ghost use Rattle.sn_refs.specs.Target.{IsTarget};
ghost use Rattle.sn_walk.specs.Node.{main_workplan as workplan_of, main_setup as main_setup_of};

use sn_model::project_has_row;
use sn_refs::Checked;

/// The project's main workplan.
pub fn main_workplan(c: &Checked) -> u32
    ensures value { result ≡ workplan_of c.now }
    ensures target { IsTarget c.now (OneRow Workplan) result }
{
    c.rule();
    project_has_row();
    c.one(c.project(), 0)
}

/// The setup that the main workplan names, if it names one.
pub fn main_setup(c: &Checked) -> Option<u32>
    ensures value { result ≡ main_setup_of c.now }
    ensures target { IfSome result (λ setup. IsTarget c.now (OneRow Setup) setup) }
{
    c.maybe_one(main_workplan(c), 1)
}
