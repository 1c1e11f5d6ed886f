//! The flow of the Eilenberg-Zilber vector field on pairs of simplices of the code.
#![tactic(auto)]

mod faces;
mod rounds;
mod sources;
mod sums;

pub use faces::FlowFaces;
pub use rounds::parts;
pub use sources::{pair_cell, signed};
pub use sums::flow;
