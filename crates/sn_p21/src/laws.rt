//! Laws of the definitions, for proofs above. The functions do nothing.

ghost use Rattle.sn_p21.specs.NumberText.{NumbersHaveText};
ghost use Rattle.sn_p21.specs.PartText.{InstancesAreSpelled, ReadsCanonical};

use sn_lex::reads_written;

/// The canonical text of a file is a part text of it, so reading what was written gives the file again.
pub fn reads_canonical()
    ensures { ReadsCanonical }
{
    reads_written();
}

/// The number, the keywords and the values of each instance of a file have the forms of their tokens.
pub fn instances_are_spelled()
    ensures { InstancesAreSpelled }
{}

/// Each integer and each real of a part text is the text of a number.
pub fn numbers_have_text()
    ensures { NumbersHaveText }
{}
