// A book as the memo of seat 0.
ghost use Rattle.std.specs.Prelude.{Some};
ghost use Rattle.memo_book.specs.Histories.{front};

use crate::book::Book;
use oracle_iface::{CellValue, Claim, Key, Memo, Ticket};
use seqs::Arc;
use std::alloc::AllocError;

/// A book is a memo of seat 0 with one shard. Its front is its history, and it was made with nothing.
impl Memo for Book {
    type Origin = ();

    ghost seat = { λ _. 0 };

    ghost shard = { λ _. 0 };

    ghost fronts = { λ b. Some (front b) };

    ghost origin = { λ _. tt };

    fn claim(&mut self, key: &Arc<Key>) -> Result<Claim, AllocError> {
        self.kept();
        let answer = self.claim(key, 0);
        self.kept();
        answer
    }

    fn publish(&mut self, ticket: Ticket, value: Arc<CellValue>) {
        self.kept();
        self.publish(ticket, value);
        self.kept();
    }

    fn release(&mut self, ticket: Ticket) {
        self.kept();
        self.release(ticket);
        self.kept();
    }

    fn look(&mut self, key: &Arc<Key>) -> Result<Option<Arc<CellValue>>, AllocError> {
        self.kept();
        let book: &Book = self;
        book.look(key)
    }
}
