//! The faces of pairs of simplices of two spaces.
#![tactic(auto)]

mod pairs;

pub use pairs::SpacePair;
