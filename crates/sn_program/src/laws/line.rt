//! Laws of lines.
ghost use Rattle.sn_program.specs.LineLaws.{WordsHaveLimits};

/// Laws of lines.
pub fn lines()
    ensures limits { WordsHaveLimits }
{}
