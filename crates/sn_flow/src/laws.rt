//! Laws of the definitions of jobs. Each function's contract states laws, and the function does nothing.
ghost use Rattle.sn_flow.specs.JobOfLaws.{WalkFirst, WorkpieceSecond, RawBoxThird, SecurityFourth, StepsLast, ElseTheJob, StepsAreExecuted, GivenBoxIsUsed, NoOtherFault, SameOptionsSameJob};
ghost use Rattle.sn_flow.specs.PartsRule.{PartsKeepRule};
ghost use Rattle.sn_flow.specs.RuleLaws.{StepsKeepRule};
ghost use Rattle.sn_flow.specs.SetupLaws.{FirstNamingTells, UnnamedStandsAtOrigin, BoundedByBlock, RawpieceFirst, OwnBlockElse, BlockInBox, GreatestOrRawTop};
ghost use Rattle.sn_flow.specs.Sides.{TurnedBoxHasSides};
ghost use Rattle.sn_flow.specs.ToolsLaws.{FirstUsesGrow, NumbersAreFilled, NumbersDiffer};

use sn_walk::laws::outcome_tells;

/// The numbers of tools.
pub fn tools()
    ensures grow { FirstUsesGrow }
    ensures filled { NumbersAreFilled }
    ensures differ { NumbersDiffer }
{}

/// Where the workpiece stands, which BLOCK bounds its raw material, what the box of a turned BLOCK holds, and which security
/// plane tells the security height.
pub fn setups()
    ensures naming { FirstNamingTells }
    ensures unnamed { UnnamedStandsAtOrigin }
    ensures bounded { BoundedByBlock }
    ensures rawpiece { RawpieceFirst }
    ensures own { OwnBlockElse }
    ensures turned { BlockInBox }
    ensures greatest { GreatestOrRawTop }
{}

/// The order of refusals: the walk, the workpiece's placement, the raw box, the security height, the steps; else there is the job.
pub fn refusals()
    ensures walk { WalkFirst }
    ensures workpiece { WorkpieceSecond }
    ensures raw_box { RawBoxThird }
    ensures security { SecurityFourth }
    ensures steps { StepsLast }
    ensures job { ElseTheJob }
{}

/// The steps of a job are the executed workingsteps in order, and a raw box that is given is that of the job. Want of memory
/// and the faults of grids are no refusals of the definition.
pub fn jobs()
    ensures executed { StepsAreExecuted }
    ensures given { GivenBoxIsUsed }
    ensures no_other { NoOtherFault }
{
    outcome_tells();
}

/// Which options a job depends on.
pub fn same_options()
    ensures { SameOptionsSameJob }
{}

/// The steps that are made of parts keep the rule of jobs.
pub(crate) fn steps_keep_rule()
    ensures { StepsKeepRule }
{}

/// The box of a turned block has three sides.
pub(crate) fn turned_boxes()
    ensures { TurnedBoxHasSides }
{}

/// The parts of executed steps have one body for each tool and one place for each feature.
pub(crate) fn parts_keep_rule()
    ensures { PartsKeepRule }
{}
