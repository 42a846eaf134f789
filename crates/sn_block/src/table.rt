//! The table of G and M words, and what words are accepted.
ghost use Rattle.std.specs.Prelude.{◌≡◌, ◌&&◌, not, ℤ};
ghost use Rattle.std.specs.List.{find};
ghost use Rattle.sn_geom.specs.LineTable as table;

use sn_geom::{DECIMALS, MOST_RATE, MOST_TOOL, ModalWord, REACH, Word};

/// Rows of G and M words.
struct Table<const N: usize> {
    rows: [ModalWord; N],
}

impl<const N: usize> Table<N> {
    fn find(&self, word: &Word) -> Option<ModalWord>
        ensures { result ≡ find (table.is_word word.now) self.now.rows }
    {
        for row in &self.rows {
            if row.letter == word.letter && row.value == word.value {
                return Some(*row);
            }
        }
        None
    }
}

// A line for each modal group: its letter, its number, the values that are accepted, and those that are refused.
macro_rules! rows {
    ($($letter:literal $group:literal [$($yes:literal)*] [$($no:literal)*])*) => {
        [$(
            $(ModalWord { letter: $letter, value: $yes, group: $group, accepted: true },)*
            $(ModalWord { letter: $letter, value: $no, group: $group, accepted: false },)*
        )*]
    };
}

/// The modal groups of NISTIR 6556, table 4, G in tenths.
const MODAL_WORDS: Table<53> = Table {
    rows: rows! {
        b'G' 1 [0 10 800] [20 30 382 810 820 830 840 850 860 870 880 890]
        b'G' 2 [170] [180 190]
        b'G' 3 [900] [910]
        b'G' 5 [940] [930]
        b'G' 6 [210] [200]
        b'G' 7 [400] [410 420]
        b'G' 8 [430 490] []
        b'G' 12 [540] [550 560 570 580 590 591 592 593]
        b'G' 13 [610 611] [640]
        b'M' 4 [0 1 2 30 60] []
        b'M' 6 [6] []
        b'M' 7 [3 5] [4]
        b'M' 8 [7 8 9] []
    },
};

/// The row of the table that has the word.
#[tactic(auto, unfolding(sn_geom::specs::LineTable::modal_word, sn_geom::specs::LineTable::modal_words))]
pub fn modal_word(word: &Word) -> Option<ModalWord>
    ensures { result ≡ table.modal_word word.now }
{
    MODAL_WORDS.find(word)
}

fn is_axis(letter: u8) -> bool
    ensures { result ≡ table.is_axis letter }
{
    letter == b'X' || letter == b'Y' || letter == b'Z'
}

fn is_number_letter(letter: u8) -> bool
    ensures { result ≡ table.is_number_letter letter }
{
    letter == b'H' || letter == b'N' || letter == b'T'
}

fn is_rate(letter: u8) -> bool
    ensures { result ≡ table.is_rate letter }
{
    letter == b'F' || letter == b'S'
}

pub fn is_modal(letter: u8) -> bool
    ensures { result ≡ table.is_modal letter }
{
    letter == b'G' || letter == b'M'
}

fn is_plain(letter: u8) -> bool
    ensures { result ≡ table.is_plain letter }
{
    is_axis(letter) || is_number_letter(letter) || is_rate(letter)
}

/// The decimals of the letter's unit.
#[tactic(auto, unfolding(sn_geom::specs::LineTable::places_of))]
pub fn places_of(letter: u8) -> usize
    ensures { result ≡ table.places_of letter }
{
    if is_axis(letter) {
        return DECIMALS;
    }
    if letter == b'G' { 1 } else { 0 }
}

#[tactic(auto, unfolding(sn_geom::specs::LineTable::has_unit))]
pub fn has_unit(letter: u8) -> bool
    ensures { result ≡ table.has_unit letter }
{
    is_plain(letter) || is_modal(letter)
}

fn is_count_to(most: u32, value: i32) -> bool
    ensures { result ≡ table.is_count_to most value }
{
    value >= 0 && value.unsigned_abs() <= most
}

/// The value is within the limits of the letter.
#[tactic(auto, unfolding(sn_geom::specs::LineTable::is_within))]
pub fn is_within(letter: u8, value: i32) -> bool
    ensures { result ≡ table.is_within letter value }
{
    if is_axis(letter) {
        return value.unsigned_abs() <= REACH;
    }
    if is_number_letter(letter) {
        return is_count_to(MOST_TOOL, value);
    }
    if is_rate(letter) {
        return is_count_to(MOST_RATE, value);
    }
    true
}

/// The word belongs to the modal group.
#[tactic(auto, unfolding(sn_geom::specs::LineTable::in_group))]
pub fn in_group(letter: u8, group: u8, word: &Word) -> bool
    ensures { result ≡ table.in_group letter group word.now }
{
    match modal_word(word) {
        Some(row) => row.letter == letter && row.group == group,
        None => false,
    }
}

/// The word is accepted, whatever the value of a letter other than G and M.
#[tactic(auto, unfolding(sn_geom::specs::LineTable::is_accepted))]
pub fn is_accepted(word: &Word) -> bool
    ensures { result ≡ table.is_accepted word.now }
{
    if is_plain(word.letter) {
        return true;
    }
    match modal_word(word) {
        Some(row) => row.accepted,
        None => false,
    }
}
