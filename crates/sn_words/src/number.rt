//! Single words and what they mean.

ghost use Rattle.std.specs.Prelude.{◌≡◌, ◌<◌, ◌^◌, ◌↔◌, ℕ, ℤ, IfSome, IfNone, IsTrue, None, Some, All, unsigned_abs, ◌≤◌, ◌<ℤ◌};
ghost use Rattle.std.specs.Option.{SomeIff};
ghost use Rattle.std.specs.Str.Parse.{IsNumeral, digits_value};
ghost use Rattle.sn_words.specs.Options.{IsBox, IsPitch};
ghost use Rattle.sn_words.specs.Reading.{cut_at};
ghost use Rattle.sn_words.specs.declared.options.Assign.{Assign};
ghost use Rattle.sn_words.specs.WordForms.{ArePointTexts, IsAssignmentWord, IsBoxWord, IsFileWord, IsLengthText, IsName, IsNameByte, IsPitchWord, IsSeedWord, IsValueText};

use crate::limits::PER_UM;
use crate::options::RawBox;
use sn_geom::{
    LEAST_PITCH, MOST_PITCH, MOST_VALUE, PER_ONE, Pt3, Um, one_reading, one_rounding, read_dec,
};

/// Whether a word names a file.
pub(crate) fn is_file_word(word: &[u8]) -> bool
    ensures { IsTrue result ↔ IsFileWord word.now }
{
    match word.first() {
        Some(byte) => *byte != b'-',
        None => false,
    }
}

/// The seed that a word is.
pub(crate) fn read_seed(word: &[u8]) -> Option<u32>
    ensures some { IfSome result (λ seed. IsSeedWord word.now seed) }
    ensures none { IfNone result ((seed : ℕ) → ¬ IsSeedWord word.now seed) }
{
    digits(word)
}

/// The pitch that a word of micrometres is, in units of length.
pub(crate) fn read_pitch(word: &[u8]) -> Option<u32>
    ensures some { IfSome result (λ pitch. IsPitchWord word.now pitch) }
    ensures none { IfNone result ((pitch : ℕ) → ¬ IsPitchWord word.now pitch) }
{
    let pitch = digits(word)?.checked_mul(PER_UM)?;
    if is_pitch(pitch) { Some(pitch) } else { None }
}

fn is_pitch(value: u32) -> bool
    ensures { IsTrue result ↔ IsPitch value }
{
    LEAST_PITCH <= value && value <= MOST_PITCH
}

/// The value of a word of digits, where it is below 2^32.
fn digits(word: &[u8]) -> Option<u32>
    ensures { SomeIff result (IsNumeral 10 word.now × (digits_value 10 word.now < 2 ^ 32)) (digits_value 10 word.now) }
{
    if word.first() == Some(&b'+') {
        return None;
    }
    let Ok(text) = str::from_utf8(word) else {
        return None;
    };
    text.parse::<u32>().ok()
}

/// The raw box that a word is.
pub(crate) fn read_box(word: &[u8]) -> Option<RawBox>
    ensures some { IfSome result (λ box. IsBoxWord word.now box) }
    ensures none { IfNone result ((box : RawBox) → ¬ IsBoxWord word.now box) }
{
    one_reading();
    one_rounding();
    let (x0, rest) = cut(word, b',')?;
    let (y0, rest) = cut(rest, b',')?;
    let (z0, rest) = cut(rest, b',')?;
    let (x1, rest) = cut(rest, b',')?;
    let (y1, z1) = cut(rest, b',')?;
    let low = read_point(x0, y0, z0)?;
    let high = read_point(x1, y1, z1)?;
    let raw = RawBox { low, high };
    if is_box(&raw) { Some(raw) } else { None }
}

fn is_box(raw: &RawBox) -> bool
    ensures { IsTrue result ↔ IsBox raw.now }
{
    let (low, high) = (raw.low, raw.high);
    is_below(low.x, high.x) && is_below(low.y, high.y) && is_below(low.z, high.z)
}

fn is_below(low: Um, high: Um) -> bool
    ensures { IsTrue result ↔ (low <ℤ high) }
{
    low.get() < high.get()
}

/// The point whose coordinates have these texts.
fn read_point(x: &[u8], y: &[u8], z: &[u8]) -> Option<Pt3>
    ensures some { IfSome result (λ p. ArePointTexts x.now y.now z.now p) }
    ensures none { IfNone result ((p : Pt3) → ¬ ArePointTexts x.now y.now z.now p) }
{
    let x = read_length(x)?;
    let y = read_length(y)?;
    let z = read_length(z)?;
    Some(Pt3 { x, y, z })
}

/// The length of a text of millimetres.
fn read_length(text: &[u8]) -> Option<Um>
    ensures some { IfSome result (λ um. IsLengthText text.now um) }
    ensures none { IfNone result ((um : ℤ) → ¬ IsLengthText text.now um) }
{
    match read_dec(text) {
        Ok(number) => number.to_um().ok(),
        Err(_) => None,
    }
}

/// The name and the value of an assignment, in thousandths.
pub(crate) fn read_assignment(word: &[u8]) -> Option<(&[u8], i32)>
    ensures some { IfSome result (λ a. IsAssignmentWord word.now (record { name = a.0.now; value = a.1 })) }
    ensures none { IfNone result ((a : Assign) → ¬ IsAssignmentWord word.now a) }
{
    let (name, text) = cut(word, b'=')?;
    if !is_name(name) {
        return None;
    }
    let value = read_value(text)?;
    Some((name, value))
}

fn is_name(text: &[u8]) -> bool
    ensures { IsTrue result ↔ IsName text.now }
{
    let Some((first, others)) = text.split_first() else {
        return false;
    };
    first.is_ascii_alphabetic() && are_name_bytes(others)
}

fn are_name_bytes(text: &[u8]) -> bool
    ensures { IsTrue result ↔ All IsNameByte text.now }
{
    for byte in text {
        if !is_name_byte(*byte) {
            return false;
        }
    }
    true
}

fn is_name_byte(byte: u8) -> bool
    ensures { IsTrue result ↔ IsNameByte byte }
{
    byte.is_ascii_alphanumeric() || byte == b'_'
}

/// The value of a text, in thousandths, where it is within its limit.
fn read_value(text: &[u8]) -> Option<i32>
    ensures some { IfSome result (λ value. IsValueText text.now value × (unsigned_abs value ≤ MOST_VALUE)) }
    ensures none { IfNone result ((value : ℤ) → IsValueText text.now value → unsigned_abs value ≤ MOST_VALUE → ⊥) }
{
    match read_dec(text) {
        Ok(number) => number.scaled(PER_ONE, MOST_VALUE).ok(),
        Err(_) => None,
    }
}

/// What stands before the first `separator`, and what stands behind it.
fn cut(text: &[u8], separator: u8) -> Option<(&[u8], &[u8])>
    ensures some { IfSome result (λ parts. cut_at separator text.now ≡ Some (parts.0.now, parts.1.now)) }
    ensures none { IfNone result (cut_at separator text.now ≡ None) }
{
    for (place, byte) in text.iter().enumerate() {
        if *byte == separator {
            return Some((&text[..place], &text[place + 1..]));
        }
    }
    None
}
