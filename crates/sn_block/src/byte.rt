//! The classes of a line's bytes.
ghost use Rattle.std.specs.Prelude.{◌≡◌, ◌≤◌, length, drop};
ghost use Rattle.sn_geom.specs.LineText as meaning;

/// A blank, a tab or a carriage return.
pub fn is_blank(b: u8) -> bool
    ensures { result ≡ meaning.is_blank b }
{
    b == b' ' || b == b'\t' || b == b'\r'
}

pub fn is_digit(b: u8) -> bool
    ensures { result ≡ meaning.is_digit b }
{
    b'0' <= b && b <= b'9'
}

pub fn is_sign(b: u8) -> bool
    ensures { result ≡ meaning.is_sign b }
{
    b == b'+' || b == b'-'
}

/// A digit, a sign or a point.
pub fn is_numeric(b: u8) -> bool
    ensures { result ≡ meaning.is_numeric b }
{
    is_digit(b) || is_sign(b) || b == b'.'
}

fn is_small(b: u8) -> bool
    ensures { result ≡ meaning.is_small b }
{
    b'a' <= b && b <= b'z'
}

pub fn is_letter(b: u8) -> bool
    ensures { result ≡ meaning.is_letter b }
{
    b'A' <= b && b <= b'Z' || is_small(b)
}

/// The letter as a capital.
pub fn capital(b: u8) -> u8
    ensures { result ≡ meaning.capital b }
{
    if is_small(b) { b - 32 } else { b }
}

/// The bytes from the `at`-th on, counted from 0.
pub fn behind(bytes: &[u8], at: usize) -> &[u8]
    requires { at ≤ length bytes.now }
    ensures { result.now ≡ drop at bytes.now }
{
    &bytes[at..]
}
