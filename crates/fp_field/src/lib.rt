//! The fields F_p of the eight least primes, and chains over them as lists of a key and a number.
//!
//! The crate has the field's operations, and the definitions and laws of chains that every other crate cites.
#![tactic(auto)]

mod element;
mod laws;
mod prime;

pub use element::{Fp, add, inv, mul, neg, reduce};
pub use laws::field_laws;
pub use prime::{Prime, prime_of, value};
