//! Laws of the verdict on a program. Each function's contract states laws, and the function does nothing.
ghost use Rattle.sn_open.specs.VerdictLaws.{LinesHaveOneFirstCause, CausesHaveAnOrder, UnreadLinesAreAtFault, RefusedLinesAreAtFault, MarksAreInTurn, EntriesAreLow, SomeActsHaveNoCause, FeedsAreTheirSteps, FeedsGouge, FeedsAreDeep, RapidsHaveAJobsTool, RapidsCrash, ProgramsHaveOneVerdict, YesIsGood, RightActsHaveNoCause, GoodActsHaveNoCause, GoodProgramsHaveNoFault, GoodProgramsDoAll, LinesAreCounted, NoLinesNoEnd, EndsAndMarksAreMissed, FirstLinesAreAtFault, FeaturesGoByTheirSteps, GoodIsWithoutCause};

use sn_geom::line_readings;

/// Laws of the first cause of a line.
pub fn line_causes()
    ensures one_first { LinesHaveOneFirstCause }
    ensures order { CausesHaveAnOrder }
    ensures unread { UnreadLinesAreAtFault }
    ensures refused { RefusedLinesAreAtFault }
{
    line_readings();
}

/// Laws of the causes of marks and of motions from an unknown place.
pub fn mark_causes()
    ensures in_turn { MarksAreInTurn }
    ensures entries { EntriesAreLow }
    ensures none { SomeActsHaveNoCause }
{}

/// Laws of the causes of motions between known places.
pub fn motion_causes()
    ensures feeds { FeedsAreTheirSteps }
    ensures gouge { FeedsGouge }
    ensures deep { FeedsAreDeep }
    ensures rapid_tools { RapidsHaveAJobsTool }
    ensures crash { RapidsCrash }
{}

/// Laws of the verdict on a program.
pub fn verdicts()
    ensures one { ProgramsHaveOneVerdict }
    ensures yes { YesIsGood }
    ensures counted { LinesAreCounted }
    ensures first_lines { FirstLinesAreAtFault }
    ensures no_lines { NoLinesNoEnd }
{
    line_readings();
}

/// Laws of good programs: nothing of them has a cause.
pub fn good_programs()
    ensures acts { RightActsHaveNoCause }
    ensures all_acts { GoodActsHaveNoCause }
    ensures lines { GoodProgramsHaveNoFault }
    ensures all { GoodProgramsDoAll }
{
    line_readings();
}

/// Laws of the verdict where no line is at fault.
pub fn stages()
    ensures missed { EndsAndMarksAreMissed }
    ensures features { FeaturesGoByTheirSteps }
{}

/// Good is what has no cause, ends, marks all steps and leaves nothing.
pub fn good_acts()
    ensures { GoodIsWithoutCause }
{}
