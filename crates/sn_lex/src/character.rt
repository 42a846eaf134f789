//! Bytes by their use in the text.
ghost use Rattle.std.specs.Prelude.{◌≡◌};
ghost use Rattle.sn_lex.specs.Character.{is_upper, is_name_byte, is_hex_digit, is_unused_count, is_sign};

/// A capital letter or the low line.
pub fn is_upper(byte: u8) -> bool
    ensures { result ≡ is_upper byte }
{
    byte.is_ascii_uppercase() || byte == b'_'
}

/// What stands in a name after its first byte.
pub fn is_name_byte(byte: u8) -> bool
    ensures { result ≡ is_name_byte byte }
{
    is_upper(byte) || byte.is_ascii_digit()
}

/// `0` to `9` and `A` to `F`.
pub fn is_hex_digit(byte: u8) -> bool
    ensures { result ≡ is_hex_digit byte }
{
    byte.is_ascii_digit() || (b'A' <= byte && byte <= b'F')
}

/// `0` to `3`: the first digit of a binary, which counts its unused bits.
pub fn is_unused_count(byte: u8) -> bool
    ensures { result ≡ is_unused_count byte }
{
    b'0' <= byte && byte <= b'3'
}

/// `+` and `-`.
pub fn is_sign(byte: u8) -> bool
    ensures { result ≡ is_sign byte }
{
    byte == b'+' || byte == b'-'
}
