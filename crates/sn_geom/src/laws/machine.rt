//! Laws of the machine that runs a program, and lines worked by hand.
ghost use Rattle.sn_geom.specs.MachineExamples.{FaultsHaveAnOrder, ProgramsEndOnce, ToolsArePutIn, ToolChangesLosePlace, MotionsHaveAxes, MotionsNeedModes, PlacesAreFound, MotionsGoOn, FeedsNeedSpindle, WordsHaveNoOrder, IdleWordsDoNothing};
ghost use Rattle.sn_geom.specs.MachineLaws.{LinesHaveOneMeaning, FaultyLinesDoNothing, LinesGoOn, FirstFaultIsTold, StopsEnd, NothingComesAfterTheEnd, NothingCountsOnceClosed, ChangesLoseAll, PlacesStay};

/// Laws of lists of lines.
pub fn lines()
    ensures one_meaning { LinesHaveOneMeaning }
    ensures faulty { FaultyLinesDoNothing }
    ensures go_on { LinesGoOn }
{}

/// The law of the faults of a line, and faults worked by hand.
pub fn faults()
    ensures first { FirstFaultIsTold }
    ensures worked { FaultsHaveAnOrder }
{}

/// Laws of the end of a program, and ends worked by hand.
pub fn end()
    ensures stops { StopsEnd }
    ensures after { NothingComesAfterTheEnd }
    ensures closed { NothingCountsOnceClosed }
    ensures worked { ProgramsEndOnce }
{}

/// Laws of tool changes, and tools worked by hand.
pub fn tools()
    ensures changes { ChangesLoseAll }
    ensures places { PlacesStay }
    ensures worked { ToolsArePutIn }
    ensures worked_changes { ToolChangesLosePlace }
    ensures worked_spindle { FeedsNeedSpindle }
{}

/// Motions, and words that act in their order or not at all, worked by hand.
pub fn motions()
    ensures axes { MotionsHaveAxes }
    ensures modes { MotionsNeedModes }
    ensures places { PlacesAreFound }
    ensures go_on { MotionsGoOn }
    ensures order { WordsHaveNoOrder }
    ensures idle { IdleWordsDoNothing }
{}
