//! Laws of the definitions that the swept tests meet. Each function's contract states laws, and the function does nothing.
ghost use Rattle.sn_geom.specs.SweepLaws.{DiscByRows, DiscHasItsCentre, NearOnePlace, NearEitherWay, NearOfLonger, NearOfLarger, TouchByHeightAndPlan, TouchAbove, CutIsTouch};

pub mod machine;
pub mod meaning;
pub mod rules;

/// Laws of discs.
pub fn discs()
    ensures by_rows { DiscByRows }
    ensures has_its_centre { DiscHasItsCentre }
{}

/// Laws of nearness to a segment.
pub fn nearness()
    ensures one_place { NearOnePlace }
    ensures either_way { NearEitherWay }
    ensures longer { NearOfLonger }
    ensures larger { NearOfLarger }
{}

/// Laws of touching and cutting.
pub fn touching()
    ensures height_and_plan { TouchByHeightAndPlan }
    ensures above { TouchAbove }
    ensures cut { CutIsTouch }
{}
