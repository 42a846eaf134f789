//! Laws of regions.
ghost use Rattle.sn_open.specs.PlaneLaws.{OutsideIsAllowed, WindowHasDiscs, AllowedCellsAreTheSteps};
ghost use Rattle.sn_open.specs.GougeLaws.{GougesAreForbidden, NoGougeStaysAllowed};
ghost use Rattle.sn_open.specs.ReachLaws.{LargerToolsHaveLessRoom, GreaterSidesAllowLess, OpeningsAreAllowed, RequiredBlocksAreRounded, FirstUnreachedIsFirst, FirstUnreachedIsOne};
ghost use Rattle.sn_open.specs.RegionLaws.{AllowedKeepsTheSide, HeightsBeginAtTheTip, DrillOpensItsDisc, FollowerOpensItsWay, ClearingOpensDiscs, RoundedFitsDiscs, OneStepIsRequired, LeastAllowancesCount};

use sn_raster::laws::grids;

/// Laws of where a step may cut.
pub fn allowed()
    ensures side { AllowedKeepsTheSide }
    ensures heights { HeightsBeginAtTheTip }
{}

/// Laws of the nodes that a step opens.
pub fn openings()
    ensures drilling { DrillOpensItsDisc }
    ensures following { FollowerOpensItsWay }
    ensures clearing { ClearingOpensDiscs }
{}

/// Laws of the cells that have to be cut.
pub fn required()
    ensures rounded { RoundedFitsDiscs }
    ensures one_step { OneStepIsRequired }
    ensures least_allowances { LeastAllowancesCount }
{}

/// Laws of regions over the window of a grid.
pub fn outside()
    ensures allowed { OutsideIsAllowed }
    ensures discs { WindowHasDiscs }
    ensures cells { AllowedCellsAreTheSteps }
{
    grids();
}

/// Laws of larger tools, greater allowances and openings.
pub fn larger()
    ensures tools { LargerToolsHaveLessRoom }
    ensures sides { GreaterSidesAllowLess }
    ensures openings { OpeningsAreAllowed }
{}

/// Laws of required nodes, and of the first cell that no step opens.
pub fn unreached()
    ensures blocks { RequiredBlocksAreRounded }
    ensures first { FirstUnreachedIsFirst }
    ensures one { FirstUnreachedIsOne }
{}

/// Laws of the cells that a move gouges.
pub fn gouging()
    ensures forbidden { GougesAreForbidden }
    ensures none { NoGougeStaysAllowed }
{}
