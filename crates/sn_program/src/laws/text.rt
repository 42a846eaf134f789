//! Laws of the text of a program.
ghost use Rattle.sn_program.specs.TextLaws.{ProgramsGiveTheirActs, StepsAreWritten};

/// Laws of the text of a program.
pub fn texts()
    ensures steps { StepsAreWritten }
    ensures acts { ProgramsGiveTheirActs }
{}
