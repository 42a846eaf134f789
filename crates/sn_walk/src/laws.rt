//! Laws of conditions and of the walk. Each function's contract states a law, and the function does nothing.
ghost use Rattle.sn_walk.specs.ConditionLaws.{AssignmentsTell, ComparisonsTell, ConditionsTell};
ghost use Rattle.sn_walk.specs.NodeLaws.{RowsHaveNodes};
ghost use Rattle.sn_walk.specs.Pending.{InstancesLead};
ghost use Rattle.sn_walk.specs.WalkLaws.{ExecutedAreSteps, FaultsTell, LimitsTell, OutcomeTells, TruthGoesByOperands, VisitsAreBounded, WalkGoesOn, WalkIsShort};

use sn_entity::given_where_wanted;
use sn_model::project_has_row;
use sn_refs::laws::{chains_are_short, named_are_targets, names_at_places, reached_are_shown};

/// What comparisons, conditions and assignments say in other words.
pub fn conditions_tell()
    ensures comparisons { ComparisonsTell }
    ensures conditions { ConditionsTell }
    ensures assignments { AssignmentsTell }
{}

/// Each row of the groups that a walk comes to has a node.
pub fn rows_have_nodes()
    ensures { RowsHaveNodes }
{}

/// What a reached instance names, by what it is to the walk.
pub(crate) fn instances_lead()
    ensures { InstancesLead }
{
    given_where_wanted();
    named_are_targets();
    names_at_places();
    reached_are_shown();
}

/// The truth of a reached condition goes by its operands, and the walk from a reached instance by what it leads to.
pub fn walk_goes_on()
    ensures truth { TruthGoesByOperands }
    ensures walk { WalkGoesOn }
{
    instances_lead();
    chains_are_short();
}

/// The steps that are executed are those among the visits, where none has a fault; else the first fault is told. Which fault a
/// visit has, in other words. A walk without a fault is short.
pub fn outcome_tells()
    ensures tells { OutcomeTells }
    ensures faults { FaultsTell }
    ensures short { WalkIsShort }
{}

/// How many visits are made, and which visit and which step are one too many.
pub fn limits_tell()
    ensures visits { VisitsAreBounded }
    ensures borders { LimitsTell }
{}

/// What is executed is a machining workingstep to which the project leads.
pub fn executed_are_steps()
    ensures { ExecutedAreSteps }
{
    given_where_wanted();
    named_are_targets();
    names_at_places();
    reached_are_shown();
    project_has_row();
    outcome_tells();
}
