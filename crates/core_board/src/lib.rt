//! The board of a table of results: which seat holds which key and which keys are published, as a pure state that events change one
//! after the other. What is true of every list of events is true of every interleaving of the sessions that make them.
#![tactic(auto)]

mod board;
mod calls;
mod events;
mod laws;

pub use board::{Board, State};
pub use calls::{Stepped, replay, step};
pub use events::{Event, EventList};
pub use laws::{interleavings, legal_lists, one_board};
