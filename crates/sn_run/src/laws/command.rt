//! Laws of what words ask for.
ghost use Rattle.sn_run.specs.CommandLaws.{AcceptedWordsAsk, OneCommand, TrialsHaveNoOptions};

use sn_words::laws::one_meaning;

/// Laws of what words ask for.
pub fn commands()
    ensures accepted { AcceptedWordsAsk }
    ensures one_command { OneCommand }
    ensures trials { TrialsHaveNoOptions }
{
    one_meaning();
}
