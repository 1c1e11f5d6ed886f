//! Chains over a field F_p: finite maps from keys to its elements, and their linear maps.
#![tactic(auto)]

mod chain;
mod maps;
mod places;
mod sums;

pub use chain::{Chain, coefficients_determine};
pub use maps::{Degrees, LinearMap, MapFault, Source, Stops};
