//! Laws of the machine's calls. Each function's contract states laws, and the function does nothing.
ghost use Rattle.sn_machine.specs.StepLaws.{StepsAreRuns};

/// Calls line after line answer what the lines mean.
pub fn stepping()
    ensures { StepsAreRuns }
{}
