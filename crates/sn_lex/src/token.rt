//! The tokens, their places and the faults.

/// A token of ISO 10303-21 clear text, in this project's profile. Its text is the slice at its span.
#[derive(Clone, Copy, Debug, PartialEq, Eq)]
pub enum Token {
    /// The word `ISO-10303-21`.
    FileStart,
    /// The word `END-ISO-10303-21`.
    FileEnd,
    /// The name of an entity or of a section; a user-defined one begins with `!`.
    Keyword,
    /// The number of an instance, `#` and digits.
    Number(u32),
    Integer,
    Real,
    /// A string, with its two apostrophes.
    Text,
    /// A name between two points.
    Enumeration,
    /// Hexadecimal digits between two quotation marks.
    Binary,
    LeftParen,
    RightParen,
    Comma,
    Semicolon,
    Equals,
    Dollar,
    Star,
    /// No more tokens: only separators are left. It stands at the count of the bytes.
    End,
}

/// A place in the bytes: the offset of its first byte, and how many bytes it has.
#[derive(Clone, Copy, Debug, PartialEq, Eq)]
pub struct Span {
    pub at: usize,
    pub len: usize,
}

/// Why no token is read, with the offset of the first byte of the faulty one.
#[derive(Clone, Copy, Debug, PartialEq, Eq)]
pub enum LexFault {
    /// No token begins at this byte.
    BadByte(usize),
    /// The string is not closed.
    OpenString(usize),
    /// The comment is not closed.
    OpenComment(usize),
    /// A sign without a digit, a real without a digit after its `E`, or a `#` without the number of an instance.
    BadNumber(usize),
    /// A point that is not followed by a name and a point.
    BadEnum(usize),
}
