//! Laws of the definitions. The function's contract states laws, and the function does nothing.
ghost use Rattle.sn_fit.specs.FitLaws.{StrokesGoFromPointToPoint, DrillsHaveOneStroke};

/// Laws of the strokes along a trail and of a drill.
pub fn fits()
    ensures along { StrokesGoFromPointToPoint }
    ensures one_stroke { DrillsHaveOneStroke }
{}
