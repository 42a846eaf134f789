//! Laws of what a command ends with.
ghost use Rattle.sn_run.specs.OutcomeLaws.{BadWordsAreNoCommand, LongReadsTakeMore, MoreIsLong, OneCase, OneJob, OneOutcome, OneRefusal, OneSettingOneJob, OneVerdict, WrittenIsApproved};

use crate::judge::sound_or_refused;
use sn_link::laws::plans;
use sn_model::one_model;
use sn_open::verdict_laws::verdicts;
use sn_p21::{one_fault, one_file};
use sn_refs::laws::one_verdict;
use sn_report::one_count;
use sn_words::laws::one_meaning;

/// Laws of refusals.
pub fn refusals()
    ensures one_refusal { OneRefusal }
    ensures bad_words { BadWordsAreNoCommand }
{
    one_file();
    one_fault();
    one_model();
    one_verdict();
    one_meaning();
    sound_or_refused();
}

/// Words and files ask for the verdict on one program for one job.
pub fn one_case()
    ensures { OneCase }
{
    one_file();
    one_fault();
    one_model();
    one_verdict();
    one_meaning();
}

/// Laws of the job, of the verdict and of the outcome.
pub fn outcomes()
    ensures one_job { OneJob }
    ensures one_verdict { OneVerdict }
    ensures one_outcome { OneOutcome }
{
    one_file();
    one_fault();
    one_model();
    one_verdict();
    one_meaning();
    one_case();
    verdicts();
    sound_or_refused();
    plans();
    one_count();
    refusals();
}

/// Laws of what is read where a part or a program is too long.
pub fn long_reads()
    ensures take_more { LongReadsTakeMore }
    ensures enough { MoreIsLong }
{}

/// The program that is written for a part is judged yes, with the same pitch, raw box and values.
pub fn written()
    ensures one_setting { OneSettingOneJob }
    ensures approved { WrittenIsApproved }
{
    one_meaning();
}
