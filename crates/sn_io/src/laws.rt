//! Laws of the definitions. Each function's contract states laws, and the function does nothing.
ghost use Rattle.sn_io.specs.CountLaws.{RisesIsMore};
ghost use Rattle.sn_io.specs.CountSinkLaws.{CountingNeverStops, CountingAddsTheLength};
ghost use Rattle.sn_io.specs.FilesLaws.{OpeningsGiveInTurn};
ghost use Rattle.sn_io.specs.SteadyLaws.{SteadyFilesGiveInTurn, SteadyFilesNeverFail, SteadySinkNeverStops};

/// Laws of counts.
pub fn counts()
    ensures rises { RisesIsMore }
{}

/// Laws of a sink that counts.
pub fn counting()
    ensures never_stops { CountingNeverStops }
    ensures adds_the_length { CountingAddsTheLength }
{}

/// Laws of files.
pub fn files()
    ensures openings { OpeningsGiveInTurn }
{}

/// Laws of files and of a sink that never fail.
pub fn steady()
    ensures files_never_fail { SteadyFilesNeverFail }
    ensures files_in_turn { SteadyFilesGiveInTurn }
    ensures sink_never_stops { SteadySinkNeverStops }
{}
