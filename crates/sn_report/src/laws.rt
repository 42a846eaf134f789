//! Laws of the definitions. The functions do nothing.
ghost use Rattle.sn_report.specs.GeneratedLaws.{SeedNoneBeginsSo, SlotsAreWritten, SeedsGiveSixteen};
ghost use Rattle.sn_report.specs.JobCountsLaws.{OneCount};

use sn_link::laws::plans;

/// What the seed 0 gives first.
pub fn seed_none_begins_so()
    ensures { SeedNoneBeginsSo }
{}

/// How a slot of 8 mm by 8 mm, 3 mm deep, is written at the first place.
pub fn slots_are_written()
    ensures { SlotsAreWritten }
{}

/// Each seed gives sixteen features.
pub fn seeds_give_sixteen()
    ensures { SeedsGiveSixteen }
{}

/// A job has one list of counts.
pub fn one_count()
    ensures { OneCount }
{
    plans();
}
