//! The parameters of one token.

ghost use Rattle.std.specs.Prelude.{◌≡◌, ◌≤◌, ◌<◌, ◌+◌, length, drop, IfOk};
ghost use Rattle.sn_p21.specs.Reader.{value_param, value_of, inner, halved, width};

use crate::file::{Bytes, Param};
use sn_lex::Token;
use sqlite_items::Items;
use std::alloc::{AllocError, Global};

/// What stands between the first and the last byte.
fn inner(text: &[u8]) -> &[u8]
    ensures { result.now ≡ inner text.now }
{
    let end = text.len();
    if end < 2 {
        return &text[end..];
    }
    &text[1..end - 1]
}

/// How many bytes the one that stands there takes: an apostrophe is written twice.
fn width(bytes: &[u8], at: usize) -> usize
    requires { at < length bytes.now }
    ensures width { result ≡ width (drop at bytes.now) }
    ensures positive { 0 < result }
    ensures within { at + result ≤ length bytes.now }
{
    if bytes.len() - at < 2 {
        return 1;
    }
    if bytes[at] != b'\'' {
        return 1;
    }
    if bytes[at + 1] == b'\'' { 2 } else { 1 }
}

/// The bytes with each apostrophe that is written twice once.
fn halved(alloc: Global, bytes: &[u8]) -> Result<Bytes, AllocError>
    ensures { IfOk result (λ value. value ≡ halved bytes.now) }
{
    let mut value = Vec::new(alloc);
    let mut at = 0;
    while at < bytes.len() {
        value.push(bytes[at])?;
        at += width(bytes, at);
    }
    Ok(Items::from_vec(value))
}

/// The parameter that the token is by itself.
pub(crate) fn value_param(
    alloc: Global,
    token: Token,
    text: &[u8],
) -> Result<Option<Param>, AllocError>
    ensures { IfOk result (λ param. param ≡ value_param token (value_of token text.now)) }
{
    match token {
        Token::Integer => Ok(Some(Param::Int(Items::from_slice(alloc, text)?))),
        Token::Real => Ok(Some(Param::Real(Items::from_slice(alloc, text)?))),
        Token::Text => Ok(Some(Param::Text(halved(alloc, inner(text))?))),
        Token::Enumeration => Ok(Some(Param::Enum(Items::from_slice(alloc, inner(text))?))),
        Token::Binary => Ok(Some(Param::Binary(Items::from_slice(alloc, inner(text))?))),
        Token::Number(number) => Ok(Some(Param::Ref(number))),
        Token::Dollar => Ok(Some(Param::Absent)),
        Token::Star => Ok(Some(Param::Derived)),
        _ => Ok(None),
    }
}
