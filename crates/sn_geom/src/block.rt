//! What is read of a line of a program: its words, its line number and its mark, or why the line is refused.
ghost use Rattle.std.specs.Prelude.{◌≡◌, ◌<◌, ◌≤◌, [], ◌∷◌, ◌++◌, length};
ghost use Rattle.sn_geom.specs.BlockRule.{IsBlock};

use crate::machine::Word;
use std::marker::Model;

/// Why a line is refused. A column counts from 1, and names the character, the word's letter or the comment's `(`.
#[derive(Clone, Copy, Debug, PartialEq, Eq)]
pub enum LineFault {
    /// More than 256 bytes.
    LongLine,
    /// A byte that begins or continues no word and no comment.
    BadChar(u32),
    /// A word without a well-formed number.
    BadNumber(u32),
    /// A value that is no whole count of its unit.
    TooFine(u32),
    /// A value outside the limits of its letter.
    OutOfRange(u32),
    /// A letter other than G and M that stands before.
    Twice(u32),
    /// A G or M word whose modal group has a word before.
    SameGroup(u32),
    /// A word that is not accepted.
    Unsupported(u32),
    /// A comment that does not end.
    OpenComment(u32),
}

/// A G or M word that is known (NISTIR 6556, on modal groups): its letter as a capital byte, its value (of G in
/// tenths), the number of its modal group among those of its letter, and whether it is accepted.
#[derive(Clone, Copy, Debug, PartialEq, Eq)]
pub struct ModalWord {
    pub letter: u8,
    pub value: i32,
    pub group: u8,
    pub accepted: bool,
}

/// The most bytes of a line, its line feed not counted.
pub const MOST_LINE: usize = 256;

/// The most words that a `LineWords` holds. The modal groups and the letters allow fewer.
pub const MOST_WORDS: usize = 64;

const _: () = prove!(MOST_LINE == 256 && MOST_WORDS == 64);

/// The words of a line, at most 64 of them, in their order.
#[derive(Drop)]
pub struct LineWords {
    words: [Word; MOST_WORDS],
    len: usize,
}

impl Model for LineWords {
    ghost use Rattle.std.specs.Prelude.{List, ◌≤◌, take};
    ghost use Rattle.sn_geom.specs.declared.block.TheConstants.{MOST_WORDS};
    ghost use Rattle.sn_geom.specs.declared.machine.Word.{Word};

    ghost Value = { List Word };

    ghost view = { λ w. take w.len w.words };

    ghost invariant = { λ w. w.len ≤ MOST_WORDS };
}

impl LineWords {
    /// No words.
    pub fn new() -> LineWords
        ensures { result ≡ [] }
    {
        LineWords {
            words: [Word {
                letter: 0,
                value: 0,
            }; MOST_WORDS],
            len: 0,
        }
    }

    /// Puts a word behind the others.
    pub fn push(&mut self, word: Word)
        requires { length self.old < MOST_WORDS }
        ensures { self.new ≡ self.old ++ word ∷ [] }
    {
        self.words[self.len] = word;
        self.len += 1;
    }

    /// The words in their order.
    pub fn as_slice(&self) -> &[Word]
        ensures words { result.now ≡ self.now }
        ensures most { length self.now ≤ MOST_WORDS }
    {
        &self.words[..self.len]
    }
}

/// What is read of a line: whether it is a percent sign alone, its line number, the workingstep that its mark names,
/// and its other words.
#[derive(Drop)]
pub struct Block {
    pub percent: bool,
    pub number: Option<u32>,
    pub mark: Option<u32>,
    pub words: LineWords,
}

impl Model for Block {
    ghost use Rattle.sn_geom.specs.Block.{Block};

    ghost Value = { Block };

    ghost use Rattle.sn_geom.specs.BlockRule.{IsBlock};

    ghost view = { λ b. record { percent = b.percent; number = b.number; mark = b.mark; words = b.words } };

    ghost invariant = { λ b. IsBlock (record { percent = b.percent; number = b.number; mark = b.mark; words = b.words }) };
}

impl Block {
    /// A line without words: an empty one, or a percent sign alone.
    pub fn without_words(percent: bool) -> Block
        ensures { result ≡ record { percent = percent; number = None; mark = None; words = [] } }
    {
        Block {
            percent,
            number: None,
            mark: None,
            words: LineWords::new(),
        }
    }

    /// Hands on what holds of every block: the limits of its values, and that no letter and no group stands twice.
    pub fn rule(&self)
        ensures { IsBlock self.now }
    {
        let _words = &self.words;
    }
}
