//! The rule of the table. Word 0 is the next ticket, word 1 the ticket that is served, and word 2
//! the length of the history. The one slot holds the value.
use crate::counted::Counted;
use atomic_table::TableRule;
use std::collections::LinkedList;

/// Where a pass stands.
pub enum Stage {
    Outside,
    Waiting,
    Inside,
    /// Inside, and the length of its history was stored.
    Put,
    /// It was joined into another.
    Spent,
}

/// The number and the front of a pass that was joined into the first.
pub struct Kept<E> {
    pub number: u64,
    pub front: LinkedList<E>,
}

/// What a pass knows. No value of it is made.
pub struct View<E> {
    pub stage: Stage,
    pub number: u64,
    /// How many passes were made; of the first pass alone.
    pub made: u64,
    /// The last ticket that it drew, counted without end.
    pub ticket: u64,
    pub front: LinkedList<E>,
    /// The history when it came in.
    pub found: LinkedList<E>,
    pub kept: LinkedList<Kept<E>>,
}

/// The rule that every step keeps.
pub struct TurnRule;

impl<B: Counted> TableRule<Option<B>, View<B::Entry>, ()> for TurnRule {
    ghost use Rattle.turnstile.specs.Turns.{Turns, first_view};

    ghost holds = { λ _. Turns B.history B.owner };

    ghost first = { λ _. first_view };
}
