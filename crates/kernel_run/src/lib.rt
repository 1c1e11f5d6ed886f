//! The kernel's top call: it runs what the words of the command line ask for, over the ports that it is handed.
//!
//! A session reads its script piece by piece, and answers each line as soon as its line feed was read. Values are kept in a table of
//! results: one that is published there is taken from it, and every other one comes from its rule, and is published unless another session
//! holds it or the table is full. What the rule needs is had in the same way.
#![tactic(auto)]

mod answers;
mod batch;
mod by_engine;
mod input;
mod jobs;
mod kernel;
mod lines;
mod open_line;
mod pieces;
mod report;
mod session;
mod shared_book;
mod status;
mod summary;
mod words;
mod write;

pub use kernel::run_kernel;
pub use report::{End, SessionReport};
pub use session::run_session;
