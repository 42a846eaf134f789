//! One function for each kind of token: the token with which the bytes begin, and what follows it.
ghost use Rattle.std.specs.Prelude.{◌≡◌, ◌++◌, codes, IsTrue, MatchOption, MatchResult, SomeIff};
ghost use Rattle.std.specs.Str.Parse.{digits_value};
ghost use Rattle.std.specs.Char.{is_ascii_digit};
ghost use Rattle.std.specs.List.{list_all};
ghost use Rattle.sn_lex.specs.Form.{IsInstanceNumber};
ghost use Rattle.sn_lex.specs.Reading.{offset_of};
ghost use Rattle.sn_lex.specs.Split.{begins_name, begins_number, LeavesString, IsInString, HasNoSeparator, ReadsToken, ReadsFault};

use crate::character::is_unused_count;
use crate::opening::{Opening, opening_of};
use crate::parts::{
    after_byte, after_integer, after_name, split_digits, split_hex_digits, split_name_bytes,
};
use crate::token::{LexFault, Token};

/// A keyword, or one of the two words that begin and end a file.
fn read_word(bytes: &[u8]) -> (Token, &[u8])
    requires { IsTrue (begins_name bytes.now) }
    ensures { ReadsToken bytes.now result.0 result.1.now }
{
    if let Some(after) = bytes.strip_prefix(b"ISO-10303-21") {
        return (Token::FileStart, after);
    }
    if let Some(after) = bytes.strip_prefix(b"END-ISO-10303-21") {
        return (Token::FileEnd, after);
    }
    let (_name, after) = split_name_bytes(bytes);
    (Token::Keyword, after)
}

/// A user-defined keyword, of which `bytes` is what follows the `!`.
fn read_user_keyword(bytes: &[u8]) -> Option<(Token, &[u8])>
    ensures { MatchOption result (ReadsFault (codes "!" ++ bytes.now) (LexFault.BadByte 0))
        (λ found. ReadsToken (codes "!" ++ bytes.now) found.0 found.1.now) }
{
    let after = after_name(bytes)?;
    Some((Token::Keyword, after))
}

/// An integer or a real.
fn read_number(bytes: &[u8]) -> Option<(Token, &[u8])>
    requires { IsTrue (begins_number bytes.now) }
    ensures { MatchOption result (ReadsFault bytes.now (LexFault.BadNumber 0))
        (λ found. ReadsToken bytes.now found.0 found.1.now) }
{
    let after = after_integer(bytes)?;
    let Some(fraction) = after_byte(after, b'.') else {
        return Some((Token::Integer, after));
    };
    let (_digits, after) = split_digits(fraction);
    let Some(exponent) = after_byte(after, b'E') else {
        return Some((Token::Real, after));
    };
    let after = after_integer(exponent)?;
    Some((Token::Real, after))
}

/// The number that the digits give an instance.
fn instance_number(digits: &[u8]) -> Option<u32>
    requires { IsTrue (list_all is_ascii_digit digits.now) }
    ensures { SomeIff result (IsInstanceNumber (digits_value 10 digits.now)) (digits_value 10 digits.now) }
{
    let mut number: u32 = 0;
    for digit in digits {
        number = number
            .checked_mul(10)?
            .checked_add(u32::from(*digit - b'0'))?;
    }
    if number == 0 { None } else { Some(number) }
}

/// The number of an instance, of which `bytes` is what follows the `#`.
fn read_instance_number(bytes: &[u8]) -> Option<(Token, &[u8])>
    ensures { MatchOption result (ReadsFault (codes "#" ++ bytes.now) (LexFault.BadNumber 0))
        (λ found. ReadsToken (codes "#" ++ bytes.now) found.0 found.1.now) }
{
    let (digits, after) = split_digits(bytes);
    let number = instance_number(digits)?;
    Some((Token::Number(number), after))
}

/// What follows the apostrophe that closes a string.
fn after_string(bytes: &[u8]) -> Option<&[u8]>
    ensures { MatchOption result (IsInString bytes.now) (λ after. LeavesString bytes.now after.now) }
{
    let mut rest = bytes;
    while let Some((first, after)) = rest.split_first() {
        if *first != b'\'' {
            rest = after;
        } else {
            match after_byte(after, b'\'') {
                Some(second) => rest = second,
                None => return Some(after),
            }
        }
    }
    None
}

/// A string, of which `bytes` is what follows the first apostrophe.
fn read_text(bytes: &[u8]) -> Option<(Token, &[u8])>
    ensures { MatchOption result (ReadsFault (codes "'" ++ bytes.now) (LexFault.OpenString 0))
        (λ found. ReadsToken (codes "'" ++ bytes.now) found.0 found.1.now) }
{
    let after = after_string(bytes)?;
    Some((Token::Text, after))
}

/// An enumeration, of which `bytes` is what follows the first point.
fn read_enumeration(bytes: &[u8]) -> Option<(Token, &[u8])>
    ensures { MatchOption result (ReadsFault (codes "." ++ bytes.now) (LexFault.BadEnum 0))
        (λ found. ReadsToken (codes "." ++ bytes.now) found.0 found.1.now) }
{
    let after = after_byte(after_name(bytes)?, b'.')?;
    Some((Token::Enumeration, after))
}

/// A binary, of which `bytes` is what follows the first quotation mark.
fn read_binary(bytes: &[u8]) -> Option<(Token, &[u8])>
    ensures { MatchOption result (ReadsFault (codes "\"" ++ bytes.now) (LexFault.BadByte 0))
        (λ found. ReadsToken (codes "\"" ++ bytes.now) found.0 found.1.now) }
{
    let (first, digits) = bytes.split_first()?;
    if !is_unused_count(*first) {
        return None;
    }
    let (_digits, after) = split_hex_digits(digits);
    let after = after_byte(after, b'"')?;
    Some((Token::Binary, after))
}

/// The token at the offset `at`, where `bytes` begins there and no separator does.
pub fn read_token(bytes: &[u8], at: usize) -> Result<(Token, &[u8]), LexFault>
    requires { HasNoSeparator bytes.now }
    ensures { MatchResult result (λ found. ReadsToken bytes.now found.0 found.1.now)
        (λ fault. ReadsFault bytes.now fault × (offset_of fault ≡ at)) }
{
    let Some((first, after)) = bytes.split_first() else {
        return Ok((Token::End, bytes));
    };
    match opening_of(*first) {
        Opening::Word => Ok(read_word(bytes)),
        Opening::Number => read_number(bytes).ok_or(LexFault::BadNumber(at)),
        Opening::Hash => read_instance_number(after).ok_or(LexFault::BadNumber(at)),
        Opening::Apostrophe => read_text(after).ok_or(LexFault::OpenString(at)),
        Opening::Point => read_enumeration(after).ok_or(LexFault::BadEnum(at)),
        Opening::Exclamation => read_user_keyword(after).ok_or(LexFault::BadByte(at)),
        Opening::Quotation => read_binary(after).ok_or(LexFault::BadByte(at)),
        Opening::Solidus => match after_byte(after, b'*') {
            Some(_body) => Err(LexFault::OpenComment(at)),
            None => Err(LexFault::BadByte(at)),
        },
        Opening::Mark(mark) => Ok((mark, after)),
        Opening::Other => Err(LexFault::BadByte(at)),
    }
}
