//! Lists and holders that contracts see as what they hold, so that equality of values is equality of
//! contents, and through which a recursive type may hold itself.
#![tactic(auto)]

mod arc;
mod boxed;
mod comparisons;
mod seq;

pub use arc::Arc;
pub use boxed::Box;
pub use seq::{Seq, new_seq};
