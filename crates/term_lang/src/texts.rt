// Rows as they are written, before their faces are found, and why values are no cocycle.
ghost use Rattle.std.specs.Prelude.{◌≡◌, [], ◌∷◌, ◌++◌, ◌<◌, ◌↔◌, length, slice_get, IsSome, OnOk, OnErr};
ghost use Rattle.std.specs.Option.{option_copied};

use crate::names::Name;
use seqs::{Seq, new_seq};
use std::alloc::{AllocError, Global};
use std::marker::Model;

/// A face as it is written: the indices of a degeneracy word and the name of a row.
#[derive(Debug, PartialEq, Eq, Drop)]
pub struct FaceText {
    pub word: Seq<u64>,
    pub name: Name,
}

/// A list of faces as they are written.
#[derive(Debug, PartialEq, Eq, Drop)]
pub struct FaceTextList {
    texts: Seq<FaceText>,
}

/// A row as it is written: its name and its faces in order.
#[derive(Debug, PartialEq, Eq, Drop)]
pub struct RowText {
    pub name: Name,
    pub faces: FaceTextList,
}

/// A list of rows as they are written.
#[derive(Debug, PartialEq, Eq, Drop)]
pub struct RowTextList {
    texts: Seq<RowText>,
}

/// Values on the rows of a table are no cocycle: the row, from 0, of dimension 3 on whose faces the
/// alternating sum is not 0, and that sum.
#[derive(Clone, Copy, Debug, PartialEq, Eq)]
pub struct NotCocycle {
    pub row: u32,
    pub sum: i64,
}

impl Model for FaceTextList {
    ghost use Rattle.std.specs.Prelude.{List};
    ghost use Rattle.term_lang.specs.declared.texts.FaceText.{FaceText};

    ghost Value = { List FaceText };

    ghost view = { λ list. list.texts };

    ghost inverse = { λ texts. record { texts = texts } };
}

impl FaceTextList {
    /// The empty list, which will grow with memory from `alloc`.
    pub fn new(alloc: Global) -> Self
        ensures { result ≡ [] }
    {
        FaceTextList {
            texts: new_seq(alloc),
        }
    }

    /// Puts a face at the end.
    pub fn push(&mut self, text: FaceText) -> Result<(), AllocError>
        ensures ok { OnOk result (self.new ≡ self.old ++ text ∷ []) }
        ensures err { OnErr result (self.new ≡ self.old) }
    {
        self.texts.push(text)
    }

    /// The face at the place `i`, counted from 0, or None exactly where `i` is not below the length.
    pub fn get(&self, i: usize) -> Option<&FaceText>
        ensures value { option_copied result ≡ slice_get self.now i }
        ensures within { IsSome result ↔ (i < length self.now) }
    {
        self.texts.get(i)
    }

    /// The number of faces.
    pub fn len(&self) -> usize
        ensures { result ≡ length self.now }
    {
        self.texts.len()
    }

    /// The faces in order.
    pub fn as_slice(&self) -> &[FaceText]
        ensures { result.now ≡ self.now }
    {
        self.texts.as_slice()
    }
}

impl Model for RowTextList {
    ghost use Rattle.std.specs.Prelude.{List};
    ghost use Rattle.term_lang.specs.declared.texts.RowText.{RowText};

    ghost Value = { List RowText };

    ghost view = { λ list. list.texts };

    ghost inverse = { λ texts. record { texts = texts } };
}

impl RowTextList {
    /// The empty list, which will grow with memory from `alloc`.
    pub fn new(alloc: Global) -> Self
        ensures { result ≡ [] }
    {
        RowTextList {
            texts: new_seq(alloc),
        }
    }

    /// Puts a row at the end.
    pub fn push(&mut self, text: RowText) -> Result<(), AllocError>
        ensures ok { OnOk result (self.new ≡ self.old ++ text ∷ []) }
        ensures err { OnErr result (self.new ≡ self.old) }
    {
        self.texts.push(text)
    }

    /// The row at the place `i`, counted from 0, or None exactly where `i` is not below the length.
    pub fn get(&self, i: usize) -> Option<&RowText>
        ensures value { option_copied result ≡ slice_get self.now i }
        ensures within { IsSome result ↔ (i < length self.now) }
    {
        self.texts.get(i)
    }

    /// The number of rows.
    pub fn len(&self) -> usize
        ensures { result ≡ length self.now }
    {
        self.texts.len()
    }

    /// The rows in order.
    pub fn as_slice(&self) -> &[RowText]
        ensures { result.now ≡ self.now }
    {
        self.texts.as_slice()
    }
}
