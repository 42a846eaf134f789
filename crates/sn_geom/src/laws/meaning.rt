//! Laws of what texts of lines mean.
ghost use Rattle.sn_geom.specs.MeaningLaws.{ActsHaveAnOrder, ActsAreJoined, TextsHaveOneMeaning, ProgramsMeanFromTheStart, ProgramsHaveOneMeaning, LinesAreSplit, WholeLinesEnd, NothingMeansNothing, MeaningsAreInPieces, FaultyTextsMeanNothing, EndedTextsDoNothing};

/// Laws of the acts of lines in one list.
pub fn acts()
    ensures order { ActsHaveAnOrder }
    ensures joined { ActsAreJoined }
{}

/// Laws of the meaning of a text: it is one, and of whole lines it comes piece by piece.
pub fn texts()
    ensures one_meaning { TextsHaveOneMeaning }
    ensures lines { LinesAreSplit }
    ensures whole { WholeLinesEnd }
    ensures nothing { NothingMeansNothing }
    ensures in_pieces { MeaningsAreInPieces }
    ensures ended { EndedTextsDoNothing }
    ensures faulty { FaultyTextsMeanNothing }
{}

/// Laws of the meaning of a program.
pub fn programs()
    ensures from_the_start { ProgramsMeanFromTheStart }
    ensures one_meaning { ProgramsHaveOneMeaning }
{}
