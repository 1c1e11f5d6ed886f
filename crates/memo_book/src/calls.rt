// The calls of a book.
ghost use Rattle.std.specs.Prelude.{◌≡◌, []};
ghost use Rattle.core_board.specs.declared.events.Event.TheVariants.{Publish, Release};
ghost use Rattle.memo_book.specs.Books.{IsBook, IsNew, Claims, Ends, Looks};
ghost use Rattle.memo_book.specs.declared.book.State.TheVariants.{Unclaimed, Published};

use crate::book::{Book, State};
use core_board::Event;
use indexmap::IndexMap;
use oracle_iface::{CellValue, Claim, Key, Ticket};
use seqs::Arc;
use std::alloc::{AllocError, Global};

/// The most keys that a book has.
const MOST: usize = 65536;

/// The book that has no keys. It will grow with memory from `alloc`.
pub fn new_book(alloc: Global) -> Book
    ensures keys { result.keys ≡ [] }
    ensures states { result.states ≡ [] }
    ensures journal { result.journal ≡ [] }
{
    Book {
        table: IndexMap::new(alloc),
        journal: Vec::new(alloc),
        held: 0,
    }
}

impl Book {
    /// Claims a key for a seat. It is Present exactly where the key is published, with its cell; Busy exactly where a seat holds it, this
    /// one included, with that seat; Full exactly where the book has 65,536 keys and this is none of them; and else Granted, and then the
    /// seat holds the key. Room for this event and a later one of the key is taken first. The only error is want of memory, and then the
    /// book is as it was.
    pub fn claim(&mut self, key: &Arc<Key>, seat: u32) -> Result<Claim, AllocError>
        ensures { Claims self.old self.new key.now seat result }
    {
        let Some(i) = self.place(key) else {
            return self.claim_new(key, seat);
        };
        match &self.table[i] {
            State::Published(value) => Ok(Claim::Present(value.clone()?)),
            State::Held(holder) => Ok(Claim::Busy(*holder)),
            State::Unclaimed => {
                let key = key.clone()?;
                self.hold(i, seat)?;
                Ok(Claim::Granted(Ticket { key, seat }))
            }
        }
    }

    /// Publishes the key of a ticket with its cell, where the ticket's seat holds the key; else the book stays as it was. It takes no memory.
    pub fn publish(&mut self, ticket: Ticket, value: Arc<CellValue>)
        requires value { value.key ≡ ticket.key }
        ensures { Ends self.old self.new ticket.key ticket.seat (Published value) (Publish ticket.seat) }
    {
        let Ticket { key, seat } = ticket;
        if let Some(i) = self.held_at(&key, seat) {
            self.fill(i, seat, value);
        }
    }

    /// Gives the key of a ticket back, where the ticket's seat holds it; else the book stays as it was. It takes no memory.
    pub fn release(&mut self, ticket: Ticket)
        ensures { Ends self.old self.new ticket.key ticket.seat Unclaimed (Release ticket.seat) }
    {
        let Ticket { key, seat } = ticket;
        if let Some(i) = self.held_at(&key, seat) {
            self.give_up(i, seat);
        }
    }

    /// The cell of a key, or None exactly where the key is not published. The only error is want of memory.
    pub fn look(&self, key: &Arc<Key>) -> Result<Option<Arc<CellValue>>, AllocError>
        ensures { Looks self.now key.now result }
    {
        let Some(i) = self.place(key) else {
            return Ok(None);
        };
        match &self.table[i] {
            State::Published(value) => Ok(Some(value.clone()?)),
            State::Held(_) => Ok(None),
            State::Unclaimed => Ok(None),
        }
    }

    /// The events so far, in order.
    pub fn journal(&self) -> &[Event]
        ensures { result.now ≡ self.now.journal }
    {
        &self.journal
    }

    /// The keys, in order of first claim.
    pub fn keys(&self) -> &[Arc<Key>]
        ensures { result.now ≡ self.now.keys }
    {
        self.table.keys().as_slice()
    }

    /// What every book keeps: its states are the replay of its journal, which is legal and names its keys in their
    /// order. It does nothing.
    pub fn kept(&self)
        ensures { IsBook self.now.keys self.now.states self.now.journal }
    {
        let _ = &self.table;
    }

    // Claims a key that the book has not.
    fn claim_new(&mut self, key: &Arc<Key>, seat: u32) -> Result<Claim, AllocError>
        requires { IsNew self.old key.now }
        ensures { Claims self.old self.new key.now seat result }
    {
        if self.table.len() == MOST {
            return Ok(Claim::Full(MOST as u32));
        }
        let held = key.clone()?;
        self.add(key, seat)?;
        Ok(Claim::Granted(Ticket { key: held, seat }))
    }
}
