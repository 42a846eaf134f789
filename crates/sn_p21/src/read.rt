//! Reading a part text.

ghost use Rattle.std.specs.Prelude.{◌≡◌, ◌≢◌, ◌↔◌, ◌⊎◌, IfOk, IfErr, IsTrue, MatchResult};
ghost use Rattle.sn_p21.specs.Content.{Content};
ghost use Rattle.sn_p21.specs.FirstFault.{IsFirstFault, OneFault};
ghost use Rattle.sn_p21.specs.Grammar.{IsFile};
ghost use Rattle.sn_p21.specs.Reader.{is_done};
ghost use Rattle.sn_p21.specs.PartText.{IsPartText, OneFile};

use crate::fault::P21Fault;
use crate::file::File;
use crate::grammar::Reader;
use sn_lex::{Token, next_token, one_next, tokens_have_bytes};
use std::alloc::Global;

/// The file of a part text, or the first fault of other bytes.
pub fn read_file(alloc: Global, bytes: &[u8]) -> Result<File, P21Fault>
    ensures found { IfOk result (λ f. IsPartText bytes.now f) }
    ensures refused { IfErr result (λ e. e ≢ P21Fault.Memory → IsFirstFault bytes.now e) }
    // A part text is read, and any other has its fault told, unless memory runs out.
    ensures only { (f : Content) → IsPartText bytes.now f → MatchResult result (λ g. g ≡ f) (λ e. e ≡ P21Fault.Memory) }
    ensures fault { (why : P21Fault) → IsFirstFault bytes.now why → MatchResult result (λ g. ⊥) (λ e. (e ≡ why) ⊎ (e ≡ P21Fault.Memory)) }
{
    one_file();
    one_fault();
    let mut reader = Reader::new(alloc);
    let mut at = 0;
    loop {
        let (token, span) = match next_token(bytes, at) {
            Ok(found) => found,
            Err(fault) => return Err(P21Fault::Lex(fault)),
        };
        if is_end(token) {
            return finish(reader, span.at);
        }
        let end = span.at + span.len;
        reader.take(alloc, token, &bytes[span.at..end], span.at)?;
        at = end;
    }
}

fn is_end(token: Token) -> bool
    ensures { IsTrue result ↔ (token ≡ Token.End) }
{
    matches!(token, Token::End)
}

/// The file that was read, at the end of the text.
fn finish(reader: Reader, at: usize) -> Result<File, P21Fault>
    requires { is_done reader → IsFile (record { header = reader.header; sections = reader.sections; instances = reader.instances }) }
    ensures done { IfOk result (λ f. is_done reader × (f ≡ record { header = reader.header; sections = reader.sections; instances = reader.instances })) }
    ensures refused { IfErr result (λ e. (is_done reader → ⊥) × (e ≡ P21Fault.Unexpected at)) }
{
    if !reader.is_done() {
        return Err(P21Fault::Unexpected(at));
    }
    Ok(File {
        header: reader.header,
        sections: reader.sections,
        instances: reader.instances,
    })
}

/// One text is one file.
pub fn one_file()
    ensures { OneFile }
{
    one_next();
    tokens_have_bytes();
}

/// Bytes are a part text or have one first fault, and not both.
pub fn one_fault()
    ensures { OneFault }
{
    one_next();
    tokens_have_bytes();
}
