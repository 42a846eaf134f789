//! Laws of the programs of plans.
ghost use Rattle.sn_program.specs.GoodLaws.{PlansAreGood, PlansCanBeWritten};

use sn_link::laws::planned_moves;

/// Laws of the programs of plans.
pub fn goods()
    ensures good { PlansAreGood }
    ensures writable { PlansCanBeWritten }
{
    planned_moves();
}
