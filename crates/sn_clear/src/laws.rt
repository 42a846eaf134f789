//! Laws of the strokes of a step that clears its feature.
ghost use Rattle.sn_clear.specs.StrokeLaws.{StrokesLieOnUsefulCentres, UsefulCentresHoldTargets, StrokesCoverByTheirCentres, DiscsAreThoseOfTheGrid, RowsAreMaximalRuns, MultiplesAndTheLastAreSelected, LastRowIsSelected, RowNumbersCountUsefulRows, RowPlacesCountSelectedRows, DirectionsAlternate, ColumnsCoverOpenTargets, HeldByCentres, StrokesAreThrifty, OneListIsThrifty};
ghost use Rattle.sn_clear.specs.ClearingLaws.{StrokesLieOnCentres, TargetsAreAlongStrokes, ClearingStrokesAreThrifty, NoStrokesWithoutTargets, SameNodesSameStrokes};

/// Laws of where strokes lie.
pub fn places()
    ensures lie { StrokesLieOnUsefulCentres }
    ensures useful { UsefulCentresHoldTargets }
{}

/// Laws of what strokes cover.
pub fn covering()
    ensures centres { StrokesCoverByTheirCentres }
    ensures discs { DiscsAreThoseOfTheGrid }
{}

/// Laws of the strokes of the rows.
pub fn rows()
    ensures runs { RowsAreMaximalRuns }
    ensures selected { MultiplesAndTheLastAreSelected }
    ensures last { LastRowIsSelected }
    ensures numbers { RowNumbersCountUsefulRows }
    ensures places { RowPlacesCountSelectedRows }
    ensures directions { DirectionsAlternate }
{}

/// Laws of thrift.
pub fn thrift()
    ensures held { HeldByCentres }
    ensures strokes { StrokesAreThrifty }
    ensures columns { ColumnsCoverOpenTargets }
    ensures one_list { OneListIsThrifty }
{}

/// Laws of the strokes of a step on its grid.
pub fn clearing()
    ensures lie { StrokesLieOnCentres }
    ensures along { TargetsAreAlongStrokes }
    ensures thrifty { ClearingStrokesAreThrifty }
    ensures none { NoStrokesWithoutTargets }
    ensures same { SameNodesSameStrokes }
{}
