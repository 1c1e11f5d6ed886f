//! The four maps of a fibred space, of any base, fibre and twist, by the combinators of reductions: what each comes to and what it asks is
//! what the definition of the space says.
#![tactic(auto)]

mod big;
mod small;
mod space;

pub use big::{fibred_f, fibred_h};
pub use small::{fibred_d, fibred_g};
pub use space::FibredSpace;
