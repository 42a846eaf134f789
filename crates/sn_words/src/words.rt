//! The words of the command line.
ghost use Rattle.std.specs.Prelude.{◌≡◌, ◌<◌, ◌^◌, [], ◌∷◌, ◌++◌, List, ℕ, map, length, Some, slice_get, OnOk, OnErr};

use sn_geom::Memory;
use std::alloc::Global;
use std::marker::Model;

/// The words of a command line after the program's name, as lists of bytes.
#[derive(Drop)]
pub struct Words {
    alloc: Global,
    items: Vec<Vec<u8>>,
}

impl Model for Words {
    ghost Value = { List (List ℕ) };

    ghost view = { λ words. map (λ word. word.items) words.items.items };
}

impl Words {
    /// No words.
    pub fn new(alloc: Global) -> Words
        ensures { result ≡ [] }
    {
        Words {
            alloc,
            items: Vec::new(alloc),
        }
    }

    /// Adds a word behind the others.
    pub fn push(&mut self, word: &[u8]) -> Result<(), Memory>
        ensures ok { OnOk result (self.new ≡ self.old ++ word.now ∷ []) }
        ensures err { OnErr result (self.new ≡ self.old) }
    {
        let word = Vec::from_slice(self.alloc, word)?;
        self.items.push(word)?;
        Ok(())
    }

    /// How many words there are.
    pub fn len(&self) -> usize
        ensures count { result ≡ length self.now }
        ensures small { result < 2 ^ 63 }
    {
        self.items.as_slice().len()
    }

    /// The word at place `k`, counted from 0.
    pub fn get(&self, k: usize) -> &[u8]
        requires { k < length self.now }
        ensures { slice_get self.now k ≡ Some result.now }
    {
        self.items[k].as_slice()
    }
}
