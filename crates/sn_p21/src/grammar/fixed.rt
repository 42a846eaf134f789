//! The words that the grammar fixes.

ghost use Rattle.std.specs.Prelude.{◌≡◌};
ghost use Rattle.sn_p21.specs.Reader.{accepts, place_after, is_keyword_named, names_header_entity, ends_header, value_of};

use crate::grammar::place::{Fixed, Place};
use sn_lex::Token;

/// Whether this is the keyword of that name.
pub(crate) fn is_keyword_named(token: Token, text: &[u8], name: &[u8]) -> bool
    ensures { result ≡ is_keyword_named token (value_of token text.now) name.now }
{
    match token {
        Token::Keyword => text == name,
        _ => false,
    }
}

/// Whether the token is the keyword of a header entity that may stand behind so many.
pub(crate) fn names_header_entity(count: usize, token: Token, text: &[u8]) -> bool
    ensures { result ≡ names_header_entity count token (value_of token text.now) }
{
    match count {
        0 => is_keyword_named(token, text, b"FILE_DESCRIPTION"),
        1 => is_keyword_named(token, text, b"FILE_NAME"),
        2 => is_keyword_named(token, text, b"FILE_SCHEMA"),
        _ => matches!(token, Token::Keyword),
    }
}

/// Whether the token ends a header of so many entities.
pub(crate) fn ends_header(count: usize, token: Token, text: &[u8]) -> bool
    ensures { result ≡ ends_header count token (value_of token text.now) }
{
    count > 2 && is_keyword_named(token, text, b"ENDSEC")
}

/// Whether the token is the word that stands there.
pub(crate) fn accepts(fixed: Fixed, token: Token, text: &[u8]) -> bool
    ensures { result ≡ accepts fixed token (value_of token text.now) }
{
    match fixed {
        Fixed::FileStart => matches!(token, Token::FileStart),
        Fixed::Equals => matches!(token, Token::Equals),
        Fixed::Header => is_keyword_named(token, text, b"HEADER"),
        _ => matches!(token, Token::Semicolon),
    }
}

/// The place behind that word.
pub(crate) fn place_after(fixed: Fixed) -> Place
    ensures { result ≡ place_after fixed }
{
    match fixed {
        Fixed::FileStart => Place::Fixed(Fixed::FileStartEnd),
        Fixed::FileStartEnd => Place::Fixed(Fixed::Header),
        Fixed::Header => Place::Fixed(Fixed::HeaderEnd),
        Fixed::HeaderEnd => Place::HeaderEntity,
        Fixed::HeaderEntityEnd => Place::HeaderEntity,
        Fixed::HeaderSectionEnd => Place::Section,
        Fixed::SectionParamsEnd => Place::Instance,
        Fixed::Equals => Place::Body,
        Fixed::InstanceEnd => Place::Instance,
        Fixed::DataSectionEnd => Place::NextSection,
        Fixed::FileEndEnd => Place::Done,
    }
}
