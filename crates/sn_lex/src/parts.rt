//! The parts of tokens: each function gives what follows the part with which the bytes begin.
ghost use Rattle.std.specs.Prelude.{◌≡◌, ◌==◌, ◌≤◌, ◌∷◌, false, length, MatchOption};
ghost use Rattle.std.specs.List.{prefix_len};
ghost use Rattle.std.specs.Char.{is_ascii_digit};
ghost use Rattle.sn_lex.specs.Character.{is_name_byte, is_hex_digit};
ghost use Rattle.sn_lex.specs.Form.{HeadFails};
ghost use Rattle.sn_lex.specs.Split.{SplitsRun, begins_name, LeavesName, unsigned, LeavesInteger, HasNoInteger};

use crate::character::{is_hex_digit, is_name_byte, is_sign, is_upper};

/// What follows the byte, where the bytes begin with it.
pub fn after_byte(bytes: &[u8], byte: u8) -> Option<&[u8]>
    ensures { MatchOption result (HeadFails (λ c. c == byte) bytes.now) (λ after. bytes.now ≡ byte ∷ after.now) }
{
    match bytes.split_first() {
        Some((first, after)) => { if *first == byte { Some(after) } else { None } }
        None => None,
    }
}

/// How many digits the bytes begin with.
#[tactic(auto, using(crate::proofs::Runs::prefix_len_le))]
fn digits_len(bytes: &[u8]) -> usize
    ensures len { result ≡ prefix_len is_ascii_digit bytes.now }
    ensures bound { result ≤ length bytes.now }
{
    bytes
        .iter()
        .take_while(|byte| byte.is_ascii_digit())
        .count()
}

/// The longest run of digits, which may be empty, and what follows it.
pub fn split_digits(bytes: &[u8]) -> (&[u8], &[u8])
    ensures { SplitsRun is_ascii_digit bytes.now result.0.now result.1.now }
{
    bytes.split_at(digits_len(bytes))
}

/// How many capital hexadecimal digits the bytes begin with.
#[tactic(auto, using(crate::proofs::Runs::prefix_len_le))]
fn hex_digits_len(bytes: &[u8]) -> usize
    ensures len { result ≡ prefix_len is_hex_digit bytes.now }
    ensures bound { result ≤ length bytes.now }
{
    bytes.iter().take_while(|byte| is_hex_digit(**byte)).count()
}

/// The longest run of capital hexadecimal digits, which may be empty, and what follows it.
pub fn split_hex_digits(bytes: &[u8]) -> (&[u8], &[u8])
    ensures { SplitsRun is_hex_digit bytes.now result.0.now result.1.now }
{
    bytes.split_at(hex_digits_len(bytes))
}

/// How many capital letters, digits and low lines the bytes begin with.
#[tactic(auto, using(crate::proofs::Runs::prefix_len_le))]
fn name_bytes_len(bytes: &[u8]) -> usize
    ensures len { result ≡ prefix_len is_name_byte bytes.now }
    ensures bound { result ≤ length bytes.now }
{
    bytes.iter().take_while(|byte| is_name_byte(**byte)).count()
}

/// The longest run of capital letters, digits and low lines, which may be empty, and what follows it.
pub fn split_name_bytes(bytes: &[u8]) -> (&[u8], &[u8])
    ensures { SplitsRun is_name_byte bytes.now result.0.now result.1.now }
{
    bytes.split_at(name_bytes_len(bytes))
}

/// Whether a name begins the bytes.
fn begins_name(bytes: &[u8]) -> bool
    ensures { result ≡ begins_name bytes.now }
{
    match bytes.first() {
        Some(first) => is_upper(*first),
        None => false,
    }
}

/// What follows the longest name, where one begins the bytes.
pub fn after_name(bytes: &[u8]) -> Option<&[u8]>
    ensures { MatchOption result (begins_name bytes.now ≡ false) (λ after. LeavesName bytes.now after.now) }
{
    if begins_name(bytes) {
        let (_name, after) = split_name_bytes(bytes);
        Some(after)
    } else {
        None
    }
}

/// The bytes without the sign with which they may begin.
fn unsigned(bytes: &[u8]) -> &[u8]
    ensures { result.now ≡ unsigned bytes.now }
{
    match bytes.split_first() {
        Some((first, after)) => { if is_sign(*first) { after } else { bytes } }
        None => bytes,
    }
}

/// What follows the longest integer, where one begins the bytes.
pub fn after_integer(bytes: &[u8]) -> Option<&[u8]>
    ensures { MatchOption result (HasNoInteger bytes.now) (λ after. LeavesInteger bytes.now after.now) }
{
    let (digits, after) = split_digits(unsigned(bytes));
    if digits.is_empty() { None } else { Some(after) }
}
