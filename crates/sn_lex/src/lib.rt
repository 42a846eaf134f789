//! The tokens of ISO 10303-21 clear text (STEP files), read from bytes one at a time.
//!
//! Nothing here takes memory: a token is a kind and a place in the bytes.
#![tactic(auto)]

ghost use Rattle.std.specs.Prelude.{◌≡◌, ◌≢◌, ◌<◌, ◌≤◌, ◌↔◌, length, drop, IfOk, IfErr};
ghost use Rattle.sn_lex.specs.Form.{AreSeparators};
ghost use Rattle.sn_lex.specs.Reading.{IsNextToken, IsNextFault, offset_of};

mod character;
mod laws;
mod opening;
mod parts;
mod read;
mod separators;
mod token;

use crate::read::read_token;
use crate::separators::skip_separators;
pub use laws::{
    faults_named, one_next, one_tokenisation, one_value, reads_written, tokens_have_bytes,
};
pub use token::{LexFault, Span, Token};

/// The next token from `at` on, with its place. The words `ISO-10303-21` and `END-ISO-10303-21` are tokens whatever
/// follows them, and no separator is needed between tokens.
pub fn next_token(bytes: &[u8], at: usize) -> Result<(Token, Span), LexFault>
    requires { at ≤ length bytes.now }
    ensures token { IfOk result (λ found. IsNextToken bytes.now at found.0 found.1) }
    ensures nonempty { IfOk result (λ found. found.0 ≢ Token.End → 0 < found.1.len) }
    ensures end { IfOk result (λ found. (found.0 ≡ Token.End) ↔ AreSeparators (drop at bytes.now)) }
    ensures end_span { IfOk result (λ found. found.0 ≡ Token.End
        → (found.1.at ≡ length bytes.now) × (found.1.len ≡ 0)) }

    ensures fault { IfErr result (λ fault. IsNextFault bytes.now at fault) }
    ensures offset { IfErr result (λ fault. (at ≤ offset_of fault) × (offset_of fault < length bytes.now)) }
{
    let rest = skip_separators(&bytes[at..]);
    let start = bytes.len() - rest.len();
    let (token, after) = read_token(rest, start)?;
    Ok((
        token,
        Span {
            at: start,
            len: rest.len() - after.len(),
        },
    ))
}
