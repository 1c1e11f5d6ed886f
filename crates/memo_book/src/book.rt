// The book.
use core_board::Event;
use indexmap::IndexMap;
use oracle_iface::{CellValue, Key};
use seqs::Arc;
use std::marker::Model;

/// How a key of a book stands.
#[derive(Debug, Drop)]
pub enum State {
    /// Nobody holds it, and it is not published.
    Unclaimed,
    /// The seat holds it.
    Held(u32),
    /// What it comes to is there for all.
    Published(Arc<CellValue>),
}

/// A table of results: keys in order of first claim, a state for each, and a journal of events, in which the number of a
/// key is its place. The states are the replay of the journal, which is legal, and a published cell is of its key. The
/// journal has room for one event more for each key that is held. A key is found by its hash, and its state by its place.
#[derive(Drop)]
pub struct Book {
    pub(crate) table: IndexMap<Arc<Key>, State>,
    pub(crate) journal: Vec<Event>,
    pub(crate) held: usize,
}

impl Model for Book {
    ghost use Rattle.memo_book.specs.Books.{BookView};
    ghost use Rattle.memo_book.specs.Kept.{IsKept};
    ghost use Rattle.memo_book.specs.contracts.book.State as state;
    ghost use Rattle.oracle_iface.specs.contracts.keys.Key as key;
    ghost use Rattle.std.specs.Coded.{codes};
    ghost use Rattle.std.specs.Map.{keys_of, values_of};

    ghost Value = { BookView };

    ghost coded = { Prim.hlevel (codes, key.the_row.coded, state.the_row.coded) };

    ghost view = { λ b. record { keys = keys_of b.table.entries; states = values_of b.table.entries; journal = b.journal.items } };

    ghost invariant = { λ b. IsKept b.table.entries b.journal b.held };
}
