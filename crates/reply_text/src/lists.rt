// Lists in replies.
ghost use Rattle.std.specs.Prelude.{◌≡◌, [], ◌∷◌, ◌++◌, length, slice_get, OnOk, OnErr};
ghost use Rattle.std.specs.Option.{option_copied};

use seqs::{Seq, new_seq};
use std::alloc::{AllocError, Global};
use std::marker::Model;
use term_lang::Name;

/// Numbers in order.
pub type NumberList = Seq<u64>;

/// A list of names.
#[derive(Debug, PartialEq, Eq, Drop)]
pub struct NameList {
    names: Seq<Name>,
}

impl Model for NameList {
    ghost use Rattle.std.specs.Prelude.{List, ℕ};

    ghost Value = { List (List ℕ) };

    ghost view = { λ list. list.names };

    ghost inverse = { λ names. record { names = names } };
}

impl NameList {
    /// The empty list, which will grow with memory from `alloc`.
    pub fn new(alloc: Global) -> Self
        ensures { result ≡ [] }
    {
        NameList {
            names: new_seq(alloc),
        }
    }

    /// Puts a name at the end.
    pub fn push(&mut self, name: Name) -> Result<(), AllocError>
        ensures ok { OnOk result (self.new ≡ self.old ++ name ∷ []) }
        ensures err { OnErr result (self.new ≡ self.old) }
    {
        self.names.push(name)
    }

    /// The name at the place `i`, counted from 0, or None exactly where `i` is not below the length.
    pub fn get(&self, i: usize) -> Option<&Name>
        ensures { option_copied result ≡ slice_get self.now i }
    {
        self.names.get(i)
    }

    /// The number of names.
    pub fn len(&self) -> usize
        ensures { result ≡ length self.now }
    {
        self.names.len()
    }

    /// The names in order.
    pub fn as_slice(&self) -> &[Name]
        ensures { result.now ≡ self.now }
    {
        self.names.as_slice()
    }
}
