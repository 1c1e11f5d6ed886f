// The words of a command line, and the status that answers them.
ghost use Rattle.std.specs.Prelude.{◌≡◌, ◌∷◌, ◌++◌, ◌<◌, ◌↔◌, [], List, ℕ, length, map, slice_get, string_bytes, OnOk, OnErr, IsSome};
ghost use Rattle.std.specs.Option.{option_copied, option_map};

use std::alloc::{AllocError, Global};
use std::marker::Model;

/// The status that a program ends with.
#[derive(Clone, Copy, Debug, PartialEq, Eq)]
pub struct Status {
    pub code: u8,
}

/// The words of a command line after the program's name.
#[derive(Debug, Drop)]
pub struct WordList {
    words: Vec<String>,
}

impl Model for WordList {
    ghost Value = { List (List ℕ) };

    ghost view = { λ list. map string_bytes list.words.items };
}

impl WordList {
    /// The empty list.
    pub fn new(alloc: Global) -> Self
        ensures { result ≡ [] }
    {
        WordList {
            words: Vec::new(alloc),
        }
    }

    /// Appends a word.
    pub fn push(&mut self, word: String) -> Result<(), AllocError>
        ensures ok { OnOk result (self.new ≡ self.old ++ string_bytes word ∷ []) }
        ensures err { OnErr result (self.new ≡ self.old) }
    {
        self.words.push(word)?;
        Ok(())
    }

    /// The word at place `i`, counted from 0.
    pub fn get(&self, i: usize) -> Option<&String>
        ensures value { option_map string_bytes (option_copied result) ≡ slice_get self.now i }
        ensures within { IsSome result ↔ (i < length self.now) }
    {
        self.words.get(i)
    }

    /// How many words there are.
    pub fn len(&self) -> usize
        ensures { result ≡ length self.now }
    {
        self.words.len()
    }
}
