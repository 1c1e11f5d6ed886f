//! The book of a table of results: its keys in order of first claim, how each stands, and the journal of the events that made it so.
#![tactic(auto)]

mod book;
mod calls;
mod memo;
mod parts;

pub use book::{Book, State};
pub use calls::new_book;
