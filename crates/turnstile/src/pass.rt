//! The turnstile and its passes.
ghost use Rattle.std.specs.Prelude.{◌≡◌, ◌%◌, ◌^◌, ◌<◌, true, false};

use crate::counted::Counted;
use crate::rule::{TurnRule, View};
use atomic_table::{Seat, Table};
use std::alloc::Global;

pub(crate) type Place<B> = Seat<Option<B>, View<<B as Counted>::Entry>>;

/// A lock round a value, which serves its passes in the order of their tickets.
#[derive(Drop)]
pub struct Turnstile<B: Counted> {
    pub(crate) table: Table<Option<B>, View<B::Entry>, (), TurnRule, Global>,
    ghost sized: { (table.shared.table_id.words ≡ 3) × (table.shared.table_id.slots ≡ 1) },
}

/// The right to enter one turnstile. Contracts see its number, its front, which is all of the
/// history that it has seen, and whether it is inside; of these only the last ticket takes bytes,
/// and which pass is the first one.
#[derive(Drop)]
pub struct Pass<B: Counted> {
    pub(crate) seat: Seat<Option<B>, View<B::Entry>>,
    pub(crate) ticket: u64,
    pub(crate) is_first: bool,
    ghost drawn: { ticket ≡ seat.me.0.ticket % 2 ^ 64 },
    ghost first: { is_first ≡ true → (seat.me.0.number ≡ 0) × (0 < seat.me.0.made) },
    ghost later: { is_first ≡ false → 0 < seat.me.0.number },
}
