//! What a token's first byte says of it.
ghost use Rattle.std.specs.Prelude.{◌≡◌};
ghost use Rattle.sn_lex.specs.Opening.{opening_of};

use crate::token::Token;

/// The forms that begin with a byte.
#[derive(Clone, Copy)]
pub enum Opening {
    /// Keywords, and the words that begin and end a file.
    Word,
    /// Integers and reals.
    Number,
    /// Numbers of instances.
    Hash,
    /// Strings.
    Apostrophe,
    /// Enumerations.
    Point,
    /// User-defined keywords.
    Exclamation,
    /// Binaries.
    Quotation,
    /// Comments.
    Solidus,
    /// The token that is the byte alone.
    Mark(Token),
    /// Nothing, or a blank alone.
    Other,
}

/// The forms that begin with the byte.
pub fn opening_of(byte: u8) -> Opening
    ensures { result ≡ opening_of byte }
{
    match byte {
        b'A'..=b'Z' | b'_' => Opening::Word,
        b'0'..=b'9' | b'+' | b'-' => Opening::Number,
        b'#' => Opening::Hash,
        b'\'' => Opening::Apostrophe,
        b'.' => Opening::Point,
        b'!' => Opening::Exclamation,
        b'"' => Opening::Quotation,
        b'/' => Opening::Solidus,
        b'(' => Opening::Mark(Token::LeftParen),
        b')' => Opening::Mark(Token::RightParen),
        b',' => Opening::Mark(Token::Comma),
        b';' => Opening::Mark(Token::Semicolon),
        b'=' => Opening::Mark(Token::Equals),
        b'$' => Opening::Mark(Token::Dollar),
        b'*' => Opening::Mark(Token::Star),
        _ => Opening::Other,
    }
}
