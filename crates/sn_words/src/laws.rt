//! Laws of command lines, for proofs above. The functions do nothing.

ghost use Rattle.sn_words.specs.CommandLaws.{AcceptedOrDeparts, DepartsOnce, OptionsChangePlaces, SaysOneThing, SaysWithinLimits};

use sn_geom::{one_reading, one_rounding};

/// One list of words says one thing.
pub fn one_meaning()
    ensures { SaysOneThing }
{
    one_reading();
    one_rounding();
}

/// A list of words departs at one place, and not where it is accepted.
pub fn departs_once()
    ensures once { DepartsOnce }
    ensures either { AcceptedOrDeparts }
{}

/// Options may stand in any order, among each other and among assignments.
pub fn any_order()
    ensures { OptionsChangePlaces }
{}

/// What words say is within its limits.
pub fn within_limits()
    ensures { SaysWithinLimits }
{}
