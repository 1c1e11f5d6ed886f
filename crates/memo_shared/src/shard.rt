// One shard.
ghost use Rattle.memo_book.specs.Histories.{history as history_of};

use memo_book::Book;
use oracle_iface::Entry;
use turnstile::Counted;

/// One shard of a table of results: a book, whose history is its journal, each number read as the key that it stands for. The
/// owner of an entry is its seat.
#[derive(Drop)]
pub struct Shard {
    pub(crate) book: Book,
}

impl Counted for Shard {
    type Entry = Entry;

    ghost history = { λ s. history_of s.book };

    ghost owner = { λ e. e.seat };

    fn count(&self) -> u64 {
        self.book.journal().len() as u64
    }
}
