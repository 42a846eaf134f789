//! A word: its faults, and what it says.
ghost use Rattle.std.specs.Prelude.{◌≡◌, ◌&&◌, ◌||◌, ◌==◌, not, Some};
ghost use Rattle.sn_geom.specs.LineTable as table;
ghost use Rattle.sn_geom.specs.LineText as meaning;
ghost use Rattle.sn_geom.specs.LineText.{a_word, has_group};
ghost use Rattle.sn_block.specs.Steps.{step};

use crate::number::{Number, read_number};
use crate::said::Said;
use crate::table::{has_unit, is_accepted, is_modal, is_within, modal_word, places_of};
use sn_geom::{LineFault, Word};

/// What is said with the word of this letter and this text of a number, or the word's fault.
pub fn take_word(said: Said, letter: u8, text: &[u8], column: u32) -> Result<Said, LineFault>
    ensures { result ≡ step said (Some (a_word letter text.now)) column }
{
    let Some(number) = read_number(text, places_of(letter)) else {
        return Err(LineFault::BadNumber(column));
    };
    if is_too_fine(letter, &number) {
        return Err(LineFault::TooFine(column));
    }
    let word = Word {
        letter,
        value: number.value(),
    };
    if !is_within(letter, word.value) {
        return Err(LineFault::OutOfRange(column));
    }
    if stands_already(&said, letter) {
        return Err(LineFault::Twice(column));
    }
    if shares_group(&said, &word) {
        return Err(LineFault::SameGroup(column));
    }
    if is_refused(&said, &word) {
        return Err(LineFault::Unsupported(column));
    }
    Ok(said.with_word(word))
}

fn is_too_fine(letter: u8, number: &Number) -> bool
    ensures { result ≡ (table.has_unit letter && not number.now.fine) }
{
    has_unit(letter) && !number.fine
}

/// A letter other than G and M stands already.
fn stands_already(said: &Said, letter: u8) -> bool
    ensures { result ≡ (not (table.is_modal letter) && meaning.has_letter said.now.block letter) }
{
    !is_modal(letter) && said.has_letter(letter)
}

/// The word is not accepted, or is a line number that does not stand first.
fn is_refused(said: &Said, word: &Word) -> bool
    ensures { result ≡ (not (table.is_accepted word.now) || (word.now.letter == 78 && said.now.begun)) }
{
    !is_accepted(word) || word.letter == b'N' && said.has_begun()
}

/// The group of the word has a word already.
fn shares_group(said: &Said, word: &Word) -> bool
    ensures { result ≡ has_group said.now.block.words (table.modal_word word.now) }
{
    match modal_word(word) {
        Some(row) => said.has_group(&row),
        None => false,
    }
}
