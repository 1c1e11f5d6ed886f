// The steps of a book: each changes one key and adds one event.
ghost use Rattle.std.specs.Prelude.{◌≡◌, ◌<◌, ℕ, Some, None, IfSome, IfNone, OnOk, OnErr, length, slice_get};
ghost use Rattle.core_board.specs.declared.events.Event.TheVariants.{Claim, Publish, Release};
ghost use Rattle.memo_book.specs.Books.{IsNew, Stands, changed, extended};
ghost use Rattle.memo_book.specs.declared.book.State.TheVariants.{Unclaimed, Held, Published};

use crate::book::{Book, State};
use core_board::Event;
use oracle_iface::{CellValue, Key};
use seqs::Arc;
use std::alloc::AllocError;

impl Book {
    // The place of a key.
    pub(crate) fn place(&self, key: &Arc<Key>) -> Option<usize>
        ensures some { IfSome result (λ i. slice_get self.now.keys i ≡ Some key.now) }
        ensures none { IfNone result (IsNew self.now key.now) }
    {
        self.table.get_index_of(key)
    }

    // The place of a key that the seat holds.
    pub(crate) fn held_at(&self, key: &Arc<Key>, seat: u32) -> Option<usize>
        ensures some { IfSome result (λ i. Stands self.now key.now i (Held seat)) }
        ensures none { IfNone result ((i : ℕ) → Stands self.now key.now i (Held seat) → ⊥) }
    {
        let i = self.place(key)?;
        match &self.table[i] {
            State::Held(holder) if *holder == seat => Some(i),
            _ => None,
        }
    }

    // The seat takes a key that the book has not.
    pub(crate) fn add(&mut self, key: &Arc<Key>, seat: u32) -> Result<(), AllocError>
        requires new { IsNew self.old key.now }
        requires room { length self.old.keys < 65536 }
        ensures ok { OnOk result (self.new ≡ extended self.old key.now seat) }
        ensures err { OnErr result (self.new ≡ self.old) }
    {
        let i = self.table.len();
        let listed = key.clone()?;
        self.journal.reserve(self.held + 2)?;
        self.table.insert(listed, State::Held(seat))?;
        self.held += 1;
        self.journal.push_reserved(Event::Claim {
            seat,
            key: i as u64,
        });
        Ok(())
    }

    // The seat takes a key that is unclaimed.
    pub(crate) fn hold(&mut self, i: usize, seat: u32) -> Result<(), AllocError>
        requires { slice_get self.old.states i ≡ Some Unclaimed }
        ensures ok { OnOk result (self.new ≡ changed self.old i (Held seat) (Claim seat i)) }
        ensures err { OnErr result (self.new ≡ self.old) }
    {
        self.journal.reserve(self.held + 2)?;
        self.table[i] = State::Held(seat);
        self.held += 1;
        self.journal.push_reserved(Event::Claim {
            seat,
            key: i as u64,
        });
        Ok(())
    }

    // The seat publishes a key that it holds. It takes no memory.
    pub(crate) fn fill(&mut self, i: usize, seat: u32, value: Arc<CellValue>)
        requires held { slice_get self.old.states i ≡ Some (Held seat) }
        requires value { slice_get self.old.keys i ≡ Some value.key }
        ensures { self.new ≡ changed self.old i (Published value) (Publish seat i) }
    {
        self.table[i] = State::Published(value);
        self.held -= 1;
        self.journal.push_reserved(Event::Publish {
            seat,
            key: i as u64,
        });
    }

    // The seat gives back a key that it holds. It takes no memory.
    pub(crate) fn give_up(&mut self, i: usize, seat: u32)
        requires held { slice_get self.old.states i ≡ Some (Held seat) }
        ensures { self.new ≡ changed self.old i Unclaimed (Release seat i) }
    {
        self.table[i] = State::Unclaimed;
        self.held -= 1;
        self.journal.push_reserved(Event::Release {
            seat,
            key: i as u64,
        });
    }
}
