// Simplices and chains as they are written.
ghost use Rattle.std.specs.Prelude.{◌≡◌, [], ◌∷◌, ◌++◌, ◌<◌, ◌↔◌, length, slice_get, IsSome, OnOk, OnErr};
ghost use Rattle.std.specs.Option.{option_copied};

use seqs::{Box, Seq, new_seq};
use std::alloc::{AllocError, Global};
use std::marker::Model;
use term_lang::{IntList, Name};

/// A simplex as it is written: the indices of a word of degeneracies, none where there is no prefix,
/// and what stands behind them.
#[cycle(simplex)]
#[derive(Debug, PartialEq, Eq, Drop)]
pub struct SimplexText {
    pub degens: Seq<u64>,
    pub body: BodyText,
}

/// What is written behind the degeneracies of a simplex.
#[cycle(simplex)]
#[derive(Debug, PartialEq, Eq, Drop)]
pub enum BodyText {
    /// `*`: the base.
    Star,
    /// A name of a row of a table, or of the cell of a sphere.
    Name(Name),
    /// `^x`: a suspended simplex.
    Up(Box<SimplexText>),
    /// `<x,y>`: two simplices of one degree.
    Pair(Box<SimplexText>, Box<SimplexText>),
    /// `|1|2|`: integers.
    Ints(IntList),
    /// `[x -y]`: letters of a word.
    Word(Seq<LetterText>),
}

/// A letter of a word as it is written: a simplex, or `-` and a simplex for its inverse.
#[cycle(simplex)]
#[derive(Debug, PartialEq, Eq, Drop)]
pub struct LetterText {
    pub inverse: bool,
    pub simplex: SimplexText,
}

/// A term of a chain as it is written.
#[derive(Debug, PartialEq, Eq, Drop)]
pub struct TermText {
    pub coeff: i64,
    pub simplex: SimplexText,
}

/// A chain as it is written.
#[derive(Debug, PartialEq, Eq, Drop)]
pub enum ChainText {
    /// `0`.
    Zero,
    /// One term at least.
    Terms(TermTextList),
}

/// A list of terms as they are written.
#[derive(Debug, PartialEq, Eq, Drop)]
pub struct TermTextList {
    texts: Seq<TermText>,
}

impl Model for TermTextList {
    ghost use Rattle.std.specs.Prelude.{List};
    ghost use Rattle.script_lang.specs.declared.simplices.TermText.{TermText};
    ghost use Rattle.std.specs.Coded.{codes};
    ghost use Rattle.script_lang.specs.contracts.simplices.BodyText as e;

    ghost Value = { List TermText };

    ghost coded = { Prim.hlevel (codes, e.the_row.coded) };

    ghost view = { λ list. list.texts };

    ghost inverse = { λ texts. record { texts = texts } };
}

impl TermTextList {
    /// The empty list, which will grow with memory from `alloc`.
    pub fn new(alloc: Global) -> Self
        ensures { result ≡ [] }
    {
        TermTextList {
            texts: new_seq(alloc),
        }
    }

    /// Puts a term at the end.
    pub fn push(&mut self, text: TermText) -> Result<(), AllocError>
        ensures ok { OnOk result (self.new ≡ self.old ++ text ∷ []) }
        ensures err { OnErr result (self.new ≡ self.old) }
    {
        self.texts.push(text)
    }

    /// The term at the place `i`, counted from 0, or None exactly where `i` is not below the length.
    pub fn get(&self, i: usize) -> Option<&TermText>
        ensures value { option_copied result ≡ slice_get self.now i }
        ensures within { IsSome result ↔ (i < length self.now) }
    {
        self.texts.get(i)
    }

    /// The number of terms.
    pub fn len(&self) -> usize
        ensures { result ≡ length self.now }
    {
        self.texts.len()
    }

    /// The terms in order.
    pub fn as_slice(&self) -> &[TermText]
        ensures { result.now ≡ self.now }
    {
        self.texts.as_slice()
    }
}
