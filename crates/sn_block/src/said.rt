//! What the words and comments of a line say.
ghost use Rattle.std.specs.Prelude.{◌≡◌, ◌≤◌, true, false, IfSome, ◌||◌, not, ◌==◌};
ghost use Rattle.std.specs.List.{list_any};
ghost use Rattle.sn_geom.specs.LineTable as table;
ghost use Rattle.sn_geom.specs.LineText as text;
ghost use Rattle.sn_block.specs.Steps.{CanStand};

use crate::table::in_group;
use sn_geom::{Block, LineWords, ModalWord, Word};
use std::marker::Model;

/// The block so far, and whether a word or a comment was read.
#[derive(Drop)]
pub struct Said {
    block: Block,
    begun: bool,
}

impl Model for Said {
    ghost use Rattle.std.specs.Prelude.{◌≡◌, false};
    ghost use Rattle.sn_geom.specs.LineText.{Said};

    ghost Value = { Said };

    ghost view = { λ s. record { block = s.block; begun = s.begun } };

    ghost invariant = { λ s. s.block.percent ≡ false };
}

impl Said {
    pub fn nothing() -> Said
        ensures { result ≡ text.nothing }
    {
        Said {
            block: Block::without_words(false),
            begun: false,
        }
    }

    pub fn has_begun(&self) -> bool
        ensures { result ≡ self.now.begun }
    {
        self.begun
    }

    pub fn into_block(self) -> Block
        ensures { result ≡ self.block }
    {
        let Said { block, begun: _ } = self;
        block
    }

    /// The letter stands already.
    #[tactic(auto, unfolding(sn_geom::specs::LineText::has_letter))]
    pub fn has_letter(&self, letter: u8) -> bool
        ensures { result ≡ text.has_letter self.now.block letter }
    {
        let block = &self.block;
        if letter == b'N' {
            return block.number.is_some();
        }
        has_letter(&block.words, letter)
    }

    /// The group of the row has a word already.
    pub fn has_group(&self, row: &ModalWord) -> bool
        ensures { result ≡ list_any (table.in_group row.now.letter row.now.group) self.now.block.words }
    {
        let block = &self.block;
        has_group(&block.words, row)
    }

    /// What is said with one more word.
    pub fn with_word(self, word: Word) -> Said
        requires { CanStand self.block word }
        ensures { result ≡ record { block = text.with_word self.block word; begun = true } }
    {
        let Said { block, begun: _ } = self;
        Said {
            block: block_with_word(block, word),
            begun: true,
        }
    }

    /// What is said with one more comment, which may be a mark: the first of a line stays.
    pub fn with_comment(self, mark: Option<u32>) -> Said
        requires { IfSome mark (λ n. 1 ≤ n) }
        ensures { result ≡ record { block = text.with_mark self.block mark; begun = true } }
    {
        let Said { block, begun: _ } = self;
        Said {
            block: block_with_mark(block, mark),
            begun: true,
        }
    }
}

fn has_letter(words: &LineWords, letter: u8) -> bool
    ensures { result ≡ list_any (λ w. w.letter == letter) words.now }
{
    words.as_slice().iter().any(|w| w.letter == letter)
}

fn has_group(words: &LineWords, row: &ModalWord) -> bool
    ensures { result ≡ list_any (table.in_group row.now.letter row.now.group) words.now }
{
    words
        .as_slice()
        .iter()
        .any(|w| in_group(row.letter, row.group, w))
}

fn block_with_word(block: Block, word: Word) -> Block
    requires no_percent { block.percent ≡ false }
    requires stands { CanStand block word }
    ensures { result ≡ text.with_word block word }
{
    let Block {
        percent,
        number,
        mark,
        mut words,
    } = block;
    if word.letter == b'N' {
        let number = Some(word.value.unsigned_abs());
        return Block {
            percent,
            number,
            mark,
            words,
        };
    }
    words.push(word);
    Block {
        percent,
        number,
        mark,
        words,
    }
}

fn block_with_mark(block: Block, mark: Option<u32>) -> Block
    requires least { IfSome mark (λ n. 1 ≤ n) }
    requires no_percent { block.percent ≡ false }
    ensures { result ≡ text.with_mark block mark }
{
    let Block {
        percent,
        number,
        mark: first,
        words,
    } = block;
    let mark = first.or(mark);
    Block {
        percent,
        number,
        mark,
        words,
    }
}
