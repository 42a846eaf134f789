//! Laws of good programs.
ghost use Rattle.sn_open.specs.GoodLaws.{AllIsLeftAtFirst, SameActsLeaveTheSame, CutStaysCut, FeedCutsAboveItsPoint, OnlyFeedsCut, CurrentStepIsMarked, ActsGoInARow, BodiesAreTheSteps, GoodMarksAreTheSteps, GoodEntriesAreSafe, GoodProgramsAreRead, GoodRapidsAreClear, GoodFeedsAreTheirSteps, GoodFeedsStayAllowed, GoodProgramsMoveClear};

/// Laws of acts in a row, of the step that is current after them, and of the bodies of tools.
pub fn acts()
    ensures current { CurrentStepIsMarked }
    ensures in_a_row { ActsGoInARow }
    ensures bodies { BodiesAreTheSteps }
{}

/// Laws of the order and the entries of a good program.
pub fn good_order()
    ensures marks_are_the_steps { GoodMarksAreTheSteps }
    ensures entries_are_safe { GoodEntriesAreSafe }
    ensures are_read { GoodProgramsAreRead }
{}

/// Laws of the motions of a good program.
pub fn good_motions()
    ensures rapids_are_clear { GoodRapidsAreClear }
    ensures feeds_are_their_steps { GoodFeedsAreTheirSteps }
    ensures feeds_stay_allowed { GoodFeedsStayAllowed }
    ensures move_clear { GoodProgramsMoveClear }
{}

/// Laws of what acts leave of the material.
pub fn left()
    ensures all_at_first { AllIsLeftAtFirst }
    ensures above_the_point { FeedCutsAboveItsPoint }
    ensures only_feeds { OnlyFeedsCut }
    ensures stays_cut { CutStaysCut }
    ensures same_acts { SameActsLeaveTheSame }
{}
