//! The text of a word's number, without blanks.
ghost use Rattle.std.specs.Prelude.{◌≡◌, ◌<◌, ◌≤◌, [], ◌∷◌, ◌++◌, length};
ghost use Rattle.sn_geom.specs.LineText.{run};

use crate::byte::{is_blank, is_numeric};
use sn_geom::MOST_LINE;
use std::marker::Model;

/// Digits, signs and points, at most as many as a line has bytes.
#[derive(Drop)]
pub struct Text {
    bytes: [u8; MOST_LINE],
    len: usize,
}

impl Model for Text {
    ghost use Rattle.std.specs.Prelude.{ℕ, List, ◌≤◌, take};
    ghost use Rattle.sn_geom.specs.declared.block.TheConstants.{MOST_LINE};

    ghost Value = { List ℕ };

    ghost view = { λ t. take t.len t.bytes };

    ghost invariant = { λ t. t.len ≤ MOST_LINE };
}

impl Text {
    fn new() -> Text
        ensures { result ≡ [] }
    {
        Text {
            bytes: [0; MOST_LINE],
            len: 0,
        }
    }

    fn push(&mut self, byte: u8)
        requires { length self.old < MOST_LINE }
        ensures { self.new ≡ self.old ++ byte ∷ [] }
    {
        self.bytes[self.len] = byte;
        self.len += 1;
    }

    pub fn as_slice(&self) -> &[u8]
        ensures { result.now ≡ self.now }
    {
        &self.bytes[..self.len]
    }
}

/// The longest run of digits, signs and points that the bytes begin with, without the blanks in it.
pub fn run_of(bytes: &[u8]) -> Text
    requires { length bytes.now ≤ MOST_LINE }
    ensures { result ≡ run bytes.now }
{
    let mut text = Text::new();
    for byte in bytes {
        if is_numeric(*byte) {
            text.push(*byte);
        } else if !is_blank(*byte) {
            return text;
        }
    }
    text
}
