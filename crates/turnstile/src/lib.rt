//! A lock that lets passes in by ticket and knows how long the history behind it is. What a pass
//! has seen of that history stays a beginning of it, and a pass alone adds the entries it owns.
#![tactic(auto)]

mod calls;
mod closing;
mod counted;
mod list;
mod lists;
mod pass;
mod plays;
mod rule;
mod steps;

pub use calls::new_turnstile;
pub use counted::Counted;
pub use list::{CloseRefused, CloseRoom, PassList};
pub use pass::{Pass, Turnstile};
