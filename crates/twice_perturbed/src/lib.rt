//! Reductions that are perturbed twice: the four maps of a twisted product, by the combinators of reductions.
#![tactic(auto)]

mod difference;
mod first;
mod no_twist;
mod twice;

pub use difference::Difference;
pub use first::{First, FirstMaps};
pub use no_twist::NoTwist;
pub use twice::{Twice, twice_d, twice_f, twice_g, twice_h};
