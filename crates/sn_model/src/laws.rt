//! Laws of models. Each function's contract states a law.
ghost use Rattle.sn_model.specs.Built.{OneModel};
ghost use Rattle.sn_model.specs.BuiltLaws.{KeptByRow, ProjectHasRow, KeptWithinLimits, RowsHaveNumbers};

use sn_entity::{one_row, one_showing, shows_shape, shows_within_limits};

/// Instances have one model or one fault, and not both.
pub fn one_model()
    ensures { OneModel }
{
    one_row();
    one_showing();
}

/// Each instance of a model is kept by its row: as what it shows, in the shape of the row, or as its fault.
pub fn kept_by_row()
    ensures { KeptByRow }
{
    one_row();
    shows_shape();
}

/// The project of a model is live, and has the row of projects.
pub fn project_has_row()
    ensures { ProjectHasRow }
{
    one_row();
}

/// What an instance of a model shows keeps the limits of its row.
pub fn kept_within_limits()
    ensures { KeptWithinLimits }
{
    shows_within_limits();
}

/// No instance that has a row has the number 0.
pub fn rows_have_numbers()
    ensures { RowsHaveNumbers }
{}
