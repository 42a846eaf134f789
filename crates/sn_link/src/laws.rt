//! Laws of the definitions. Each function's contract states laws, and the function does nothing.
ghost use Rattle.sn_link.specs.ClearingLaws.{ClearingStepsAreThrifty};
ghost use Rattle.sn_link.specs.CountLaws.{EachStepWithMovesIsCounted};
ghost use Rattle.sn_link.specs.MovesLaws.{PlungesGoDownAndUp, MovesThatStayAreLeftOut};
ghost use Rattle.sn_link.specs.PlanLaws.{TipsAreKept, OnlyFeedsOfMovesCut, OneHighest, OnePlan, NothingToCutNoMoves, RepeatedStepsRest, StepsBeginAtTheTip, DrillsPlunge};
ghost use Rattle.sn_link.specs.PlanLaws.{LayersAreAnAxialDepthApart, LayersComeToTheFloor, OneListOfLayers, LinksAreFedOrLifted, LayersGoAlongTheirStrokes, LaterLayersBeginWhereTheLastCut, TrailsAreFollowedInLayers};
ghost use Rattle.sn_link.specs.SafeLaws.{PlannedMovesAreSafe, PlannedMovesEndAbove, PlannedMovesCutTheTargets, PlannedMovesAreStraight};

use sn_clear::laws::clearing;
use sn_open::laws::outside;
use sn_raster::laws::grids;

/// Laws of moves.
pub fn moves()
    ensures plunges { PlungesGoDownAndUp }
    ensures stays { MovesThatStayAreLeftOut }
{}

/// Laws of the plan of a job and of what its moves cut.
pub fn plans()
    ensures tips { TipsAreKept }
    ensures only_feeds { OnlyFeedsOfMovesCut }
    ensures one_highest { OneHighest }
    ensures one_plan { OnePlan }
    ensures no_moves { NothingToCutNoMoves }
    ensures repeated { RepeatedStepsRest }
    ensures begin_at_the_tip { StepsBeginAtTheTip }
    ensures drills { DrillsPlunge }
    ensures counted { EachStepWithMovesIsCounted }
{
    clearing();
}

/// Laws of the layers of a step.
pub fn layers()
    ensures depths { LayersAreAnAxialDepthApart }
    ensures come_to_the_floor { LayersComeToTheFloor }
    ensures one_list { OneListOfLayers }
    ensures links { LinksAreFedOrLifted }
    ensures along { LayersGoAlongTheirStrokes }
    ensures later { LaterLayersBeginWhereTheLastCut }
    ensures trails { TrailsAreFollowedInLayers }
{
    clearing();
}

/// What the moves of each planned step keep.
pub fn planned_moves()
    ensures safe { PlannedMovesAreSafe }
    ensures end_above { PlannedMovesEndAbove }
    ensures cut { PlannedMovesCutTheTargets }
    ensures straight { PlannedMovesAreStraight }
    ensures thrifty { ClearingStepsAreThrifty }
{
    clearing();
    grids();
    outside();
}
