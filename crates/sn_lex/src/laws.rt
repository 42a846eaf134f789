//! Laws of the definitions, for proofs above. The functions do nothing.
ghost use Rattle.sn_lex.specs.Law.{OneNext, TokensHaveBytes, FaultsNamed, OneTokenisation, OneValue, ReadsWritten};

/// What stands next is one token at one place or one fault, and not both.
pub fn one_next()
    ensures { OneNext }
{}

/// Each token but `End` has a byte, and `End` stands exactly where separators alone are left.
pub fn tokens_have_bytes()
    ensures { TokensHaveBytes }
{}

/// Each fault stands exactly where the bytes are as it says.
pub fn faults_named()
    ensures { FaultsNamed }
{}

/// Two tokenisations of the same bytes are the same list, and stop in the same way.
pub fn one_tokenisation()
    ensures { OneTokenisation }
{}

/// A string has one value.
pub fn one_value()
    ensures { OneValue }
{}

/// A token's text, with separators before it and a mark or a blank after it, is read as that token.
pub fn reads_written()
    ensures { ReadsWritten }
{}
