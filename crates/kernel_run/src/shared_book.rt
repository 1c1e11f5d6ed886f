// A book that sessions share.
ghost use Rattle.std.specs.Prelude.{None};
ghost use Rattle.oracle_iface.specs.Memos.{IsClaimed, IsLooked};

use memo_book::Book;
use oracle_iface::{CellValue, Claim, Key, Memo, Ticket};
use seqs::Arc;
use std::alloc::AllocError;
use std::sync::{Mutex, Wait};

/// A book that sessions share behind one lock, as the memo of one seat. It tells no front. The lock is held for one call of
/// the book, and never while a rule runs.
#[derive(Drop)]
pub(crate) struct SharedBook<'a, W: Wait> {
    pub rt: &'a W,
    pub book: &'a Mutex<Book>,
    pub seat: u32,
}

impl<'a, W: Wait> Memo for SharedBook<'a, W> {
    type Origin = ();

    ghost seat = { λ b. b.seat };

    ghost shard = { λ _. 0 };

    ghost fronts = { λ _. None };

    ghost origin = { λ _. tt };

    fn claim(&mut self, key: &Arc<Key>) -> Result<Claim, AllocError> {
        claim_at(&mut self.book.lock(self.rt), key, self.seat)
    }

    fn publish(&mut self, ticket: Ticket, value: Arc<CellValue>) {
        self.book.lock(self.rt).publish(ticket, value);
    }

    fn release(&mut self, ticket: Ticket) {
        self.book.lock(self.rt).release(ticket);
    }

    fn look(&mut self, key: &Arc<Key>) -> Result<Option<Arc<CellValue>>, AllocError> {
        look_at(&self.book.lock(self.rt), key)
    }
}

// Claims a key for a seat, which sees no front.
fn claim_at(book: &mut Book, key: &Arc<Key>, seat: u32) -> Result<Claim, AllocError>
    ensures { IsClaimed seat 0 key.now None None result }
{
    book.kept();
    book.claim(key, seat)
}

// Looks a key up for a seat, which sees no front.
fn look_at(book: &Book, key: &Arc<Key>) -> Result<Option<Arc<CellValue>>, AllocError>
    ensures { IsLooked 0 0 key.now None None result }
{
    book.kept();
    book.look(key)
}
