//! Lists of passes, and what closing takes and gives back.
ghost use Rattle.std.specs.Prelude.{ℕ};

use crate::counted::Counted;
use crate::pass::{Pass, Turnstile};
use std::marker::{Model, PhantomData};

/// Passes, in the order in which they were pushed.
#[derive(Drop)]
pub struct PassList<B: Counted> {
    pub(crate) items: Vec<Pass<B>>,
}

/// All memory that closing with so many passes takes, which is none. Contracts see the number.
#[derive(Drop)]
pub struct CloseRoom<B: Counted> {
    pub(crate) passes: u32,
    pub(crate) marker: PhantomData<B>,
}

impl<B: Counted> Model for CloseRoom<B> {
    ghost Value = { ℕ };

    ghost view = { λ room. room.passes };
}

/// There was no memory to close with: both come back.
#[derive(Drop)]
pub struct CloseRefused<B: Counted> {
    pub turnstile: Turnstile<B>,
    pub passes: PassList<B>,
}
