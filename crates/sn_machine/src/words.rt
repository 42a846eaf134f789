//! What the words of a line say.
ghost use Rattle.std.specs.Prelude.{◌≡◌};
ghost use Rattle.sn_geom.specs.Block.{has_word, value_of, count_of, has_g, has_m, has_axis, has_z_alone, has_x_and_y};

use sn_geom::{Um, Word};

fn has_word(words: &[Word], letter: u8, value: u16) -> bool
    ensures { result ≡ has_word words.now letter value }
{
    words.iter().any(|word| word.letter == letter && word.value == i32::from(value))
}

/// Whether the words have the G word of the value, in tenths.
pub(crate) fn has_g(words: &[Word], tenths: u16) -> bool
    ensures { result ≡ has_g words.now tenths }
{
    has_word(words, b'G', tenths)
}

/// Whether the words have the M word of the value.
pub(crate) fn has_m(words: &[Word], value: u16) -> bool
    ensures { result ≡ has_m words.now value }
{
    has_word(words, b'M', value)
}

/// The value of a letter, where the words have it.
pub(crate) fn value_of(words: &[Word], letter: u8) -> Option<i32>
    ensures { result ≡ value_of words.now letter }
{
    words
        .iter()
        .find(|word| word.letter == letter)
        .map(|word| word.value)
}

/// The value of a letter that counts from 0, where the words have it.
pub(crate) fn count_of(words: &[Word], letter: u8) -> Option<u32>
    ensures { result ≡ count_of words.now letter }
{
    value_of(words, letter).map(|value| value.unsigned_abs())
}

/// Whether the words have an axis word.
pub(crate) fn has_axis(words: &[Word]) -> bool
    ensures { result ≡ has_axis words.now }
{
    value_of(words, b'X').is_some()
        || value_of(words, b'Y').is_some()
        || value_of(words, b'Z').is_some()
}

/// Whether Z is the only axis of the words.
pub(crate) fn has_z_alone(words: &[Word]) -> bool
    ensures { result ≡ has_z_alone words.now }
{
    value_of(words, b'Z').is_some()
        && !value_of(words, b'X').is_some()
        && !value_of(words, b'Y').is_some()
}

/// Whether the words have both X and Y.
pub(crate) fn has_x_and_y(words: &[Word]) -> bool
    ensures { result ≡ has_x_and_y words.now }
{
    value_of(words, b'X').is_some() && value_of(words, b'Y').is_some()
}
