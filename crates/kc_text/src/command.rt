//! The words of a command line.
ghost use Rattle.std.specs.Prelude.{◌≡◌, ◌<◌, ◌++◌, ◌∷◌, [], length, drop, map, IfOk, OnOk, OnErr, slice_get, Some, string_bytes};
ghost use Rattle.std.specs.Vec.Iter.{into_iter_items};

use crate::Bytes;
use std::alloc::{AllocError, Global};
use std::env::Args;
use std::marker::Model;

/// The words of a command line, without the program's name. A contract sees them as a list of byte lists.
#[derive(Drop, Debug)]
pub struct Words {
    // The words in the order of the command line.
    words: Vec<Bytes>,
}

impl Model for Words {
    ghost use Rattle.std.specs.Prelude.{List, ℕ};

    ghost Value = { List (List ℕ) };

    ghost view = { λ w. w.words.items };
}

impl Words {
    /// Makes an empty list of words. Takes no memory.
    pub fn new(alloc: Global) -> Self
        ensures { result ≡ [] }
    {
        Words {
            words: Vec::new(alloc),
        }
    }

    /// Returns the words of a command line without the first one, the program's name.
    pub fn from_args(alloc: Global, args: Args) -> Result<Self, AllocError>
        ensures { IfOk result (λ words. words ≡ drop 1 (map string_bytes (into_iter_items args))) }
    {
        let mut args = args;
        let _name = args.next();
        let mut words = Words::new(alloc);
        while let Some(word) = args.next() {
            words.push(alloc, word.as_str().as_bytes())?;
        }
        Ok(words)
    }

    /// Appends a copy of a word. If there is no memory, the list stays as it was.
    pub fn push(&mut self, alloc: Global, word: &[u8]) -> Result<(), AllocError>
        ensures ok { OnOk result (self.new ≡ self.old ++ word.now ∷ []) }
        ensures err { OnErr result (self.new ≡ self.old) }
    {
        let copy = Vec::from_slice(alloc, word)?;
        self.words.push(Bytes::from_vec(copy))?;
        Ok(())
    }

    /// Returns the number of words.
    pub fn len(&self) -> usize
        ensures { result ≡ length self.now }
    {
        self.words.len()
    }

    /// Returns the word at place `i`, counted from 0. There are more than `i` words.
    pub fn word(&self, i: usize) -> &[u8]
        requires { i < length self.now }
        ensures { slice_get self.now i ≡ Some result.now }
    {
        self.words[i].as_slice()
    }
}
