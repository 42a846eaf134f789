//! Borders of the rules of numbers and of lines that are read, worked by hand.
ghost use Rattle.sn_geom.specs.RuleExamples.{DecimalsAreBounded, LineNumbersAreBounded, WordsAreBounded, WordsAreDistinct, PercentsStandAlone};

/// How large a number that is read may be.
pub fn numbers()
    ensures { DecimalsAreBounded }
{}

/// What a line that is read may say.
pub fn lines()
    ensures numbers { LineNumbersAreBounded }
    ensures words { WordsAreBounded }
    ensures distinct { WordsAreDistinct }
    ensures percents { PercentsStandAlone }
{}
