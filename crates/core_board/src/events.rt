// Events of a board.
ghost use Rattle.std.specs.Prelude.{◌≡◌, [], ◌∷◌, ◌++◌, length, slice_get, OnOk, OnErr};
ghost use Rattle.std.specs.Option.{option_copied};

use std::alloc::{AllocError, Global};
use std::marker::Model;

/// What a seat does to a key.
#[derive(Clone, Copy, Debug, PartialEq, Eq)]
pub enum Event {
    /// The seat takes the key, which nobody holds, to work on it.
    Claim { seat: u32, key: u64 },
    /// The seat, which holds the key, publishes what it came to.
    Publish { seat: u32, key: u64 },
    /// The seat, which holds the key, gives it back.
    Release { seat: u32, key: u64 },
}

/// A list of events, in the order in which they happen.
#[derive(Debug, Drop)]
pub struct EventList {
    events: Vec<Event>,
}

impl Model for EventList {
    ghost use Rattle.std.specs.Prelude.{List};
    ghost use Rattle.core_board.specs.declared.events.Event.{Event};

    ghost Value = { List Event };

    ghost view = { λ l. l.events.items };
}

impl EventList {
    /// The empty list.
    pub fn new(alloc: Global) -> EventList
        ensures { result ≡ [] }
    {
        EventList {
            events: Vec::new(alloc),
        }
    }

    /// The number of events.
    pub fn len(&self) -> usize
        ensures { result ≡ length self.now }
    {
        self.events.len()
    }

    /// The event at a place, or None exactly where the place is not below the length.
    pub fn get(&self, i: usize) -> Option<&Event>
        ensures { option_copied result ≡ slice_get self.now i }
    {
        self.events.get(i)
    }

    /// The events in order.
    pub fn as_slice(&self) -> &[Event]
        ensures { result.now ≡ self.now }
    {
        &self.events
    }

    /// Puts an event at the end.
    pub fn push(&mut self, event: Event) -> Result<(), AllocError>
        ensures ok { OnOk result (self.new ≡ self.old ++ event ∷ []) }
        ensures err { OnErr result (self.new ≡ self.old) }
    {
        self.events.push(event)?;
        Ok(())
    }
}
