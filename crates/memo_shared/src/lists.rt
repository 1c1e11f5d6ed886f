// Lists of passes and of books.
ghost use Rattle.std.specs.Prelude.{◌≡◌, [], ◌∷◌, ◌++◌, length, slice_get, OnOk, OnErr};
ghost use Rattle.std.specs.Option.{option_copied};

use crate::memo::MemoPass;
use memo_book::Book;
use std::alloc::{AllocError, Global};
use std::marker::Model;

/// Passes, in the order in which they were pushed.
#[derive(Drop)]
pub struct MemoPassList {
    pub(crate) passes: Vec<MemoPass>,
}

/// The books of a table that was closed, in the order of its shards.
#[derive(Drop)]
pub struct Books {
    pub(crate) books: Vec<Book>,
}

impl Model for MemoPassList {
    ghost use Rattle.std.specs.Prelude.{List};
    ghost use Rattle.std.specs.Coded.{codes};
    ghost use Rattle.memo_shared.specs.contracts.memo.MemoPass as pass;
    ghost use Rattle.memo_shared.specs.declared.memo.MemoPass.{MemoPass};

    ghost Value = { List MemoPass };

    ghost coded = { Prim.hlevel (codes, pass.the_row.coded) };

    ghost view = { λ l. l.passes.items };
}

impl Model for Books {
    ghost use Rattle.std.specs.Prelude.{List};
    ghost use Rattle.std.specs.Coded.{codes};
    ghost use Rattle.memo_book.specs.Books.{BookView};
    ghost use Rattle.memo_book.specs.contracts.book.State as state;
    ghost use Rattle.oracle_iface.specs.contracts.keys.Key as key;

    ghost Value = { List BookView };

    ghost coded = { Prim.hlevel (codes, key.the_row.coded, state.the_row.coded) };

    ghost view = { λ l. l.books.items };
}

impl MemoPassList {
    /// No passes. The list will grow with memory from `alloc`.
    pub fn new(alloc: Global) -> Self
        ensures { result ≡ [] }
    {
        MemoPassList {
            passes: Vec::new(alloc),
        }
    }

    /// Puts a pass at the end. The only error is want of memory; the list then stays, and the pass is lost.
    pub fn push(&mut self, pass: MemoPass) -> Result<(), AllocError>
        ensures ok { OnOk result (self.new ≡ self.old ++ pass ∷ []) }
        ensures err { OnErr result (self.new ≡ self.old) }
    {
        self.passes.push(pass)?;
        Ok(())
    }

    /// The pass at a place, counted from 0, or None exactly where the place is not below the length.
    pub fn get(&self, i: usize) -> Option<&MemoPass>
        ensures { option_copied result ≡ slice_get self.now i }
    {
        self.passes.get(i)
    }

    /// The number of passes.
    pub fn len(&self) -> usize
        ensures { result ≡ length self.now }
    {
        self.passes.len()
    }
}

impl Books {
    /// No books. The list will grow with memory from `alloc`.
    pub fn new(alloc: Global) -> Self
        ensures { result ≡ [] }
    {
        Books {
            books: Vec::new(alloc),
        }
    }

    /// Puts a book at the end. The only error is want of memory; the list then stays.
    pub fn push(&mut self, book: Book) -> Result<(), AllocError>
        ensures ok { OnOk result (self.new ≡ self.old ++ book ∷ []) }
        ensures err { OnErr result (self.new ≡ self.old) }
    {
        self.books.push(book)?;
        Ok(())
    }

    /// The book at a place, counted from 0, or None exactly where the place is not below the length.
    pub fn get(&self, i: usize) -> Option<&Book>
        ensures { option_copied result ≡ slice_get self.now i }
    {
        self.books.get(i)
    }

    /// The number of books.
    pub fn len(&self) -> usize
        ensures { result ≡ length self.now }
    {
        self.books.len()
    }
}
