// Spaces as they are written.
ghost use Rattle.std.specs.Prelude.{◌≡◌, [], ◌∷◌, ◌++◌, ◌<◌, ◌↔◌, length, slice_get, IsSome, OnOk, OnErr};
ghost use Rattle.std.specs.Option.{option_copied};

use seqs::{Box, Seq, new_seq};
use std::alloc::{AllocError, Global};
use std::marker::Model;
use term_lang::{Name, RowTextList};

/// A space as it is written, one variant for each construction (Kenzo documentation, 1999).
#[derive(Debug, PartialEq, Eq, Drop)]
pub enum Expr {
    /// A name of a space.
    Name(Name),
    /// `(sphere 3)`: the sphere of this dimension.
    Sphere(u64),
    /// `(crts-prdc a b)`: the product of two spaces.
    Product(Box<Expr>, Box<Expr>),
    /// `(suspension a)`: the suspension of a space.
    Suspension(Box<Expr>),
    /// `(k-z-1)`: K(Z,1).
    KZ1,
    /// `(loop-space a)`: the loop group of a space.
    Loop(Box<Expr>),
    /// `(path-space a)`: the path space of a space.
    Path(Box<Expr>),
    /// `(bundle a (t 1))`: the bundle with fibre K(Z,1) over a space, by values on its cells.
    Bundle(Box<Expr>, PairTextList),
    /// `(table (v) (e v v))`: the table of these rows.
    Table(RowTextList),
}

/// A value on a cell, as it is written.
#[derive(Debug, PartialEq, Eq, Drop)]
pub struct PairText {
    pub cell: Name,
    pub value: i64,
}

/// A list of values on cells, as they are written.
#[derive(Debug, PartialEq, Eq, Drop)]
pub struct PairTextList {
    texts: Seq<PairText>,
}

impl Model for PairTextList {
    ghost use Rattle.std.specs.Prelude.{List};
    ghost use Rattle.script_lang.specs.declared.exprs.PairText.{PairText};

    ghost Value = { List PairText };

    ghost view = { λ list. list.texts };

    ghost inverse = { λ texts. record { texts = texts } };
}

impl PairTextList {
    /// The empty list, which will grow with memory from `alloc`.
    pub fn new(alloc: Global) -> Self
        ensures { result ≡ [] }
    {
        PairTextList {
            texts: new_seq(alloc),
        }
    }

    /// Puts a pair at the end.
    pub fn push(&mut self, text: PairText) -> Result<(), AllocError>
        ensures ok { OnOk result (self.new ≡ self.old ++ text ∷ []) }
        ensures err { OnErr result (self.new ≡ self.old) }
    {
        self.texts.push(text)
    }

    /// The pair at the place `i`, counted from 0, or None exactly where `i` is not below the length.
    pub fn get(&self, i: usize) -> Option<&PairText>
        ensures value { option_copied result ≡ slice_get self.now i }
        ensures within { IsSome result ↔ (i < length self.now) }
    {
        self.texts.get(i)
    }

    /// The number of pairs.
    pub fn len(&self) -> usize
        ensures { result ≡ length self.now }
    {
        self.texts.len()
    }

    /// The pairs in order.
    pub fn as_slice(&self) -> &[PairText]
        ensures { result.now ≡ self.now }
    {
        self.texts.as_slice()
    }
}
