//! The reduction of a space, each map of which asks for its value: what the second perturbation of a product, a bundle, a path space or a loop
//! group takes for its two parts.
#![tactic(auto)]

mod asked;
mod boundaries;
mod part;
mod stops;

pub use asked::{asked_big, asked_small};
pub use part::AskedPart;
pub use stops::AskStop;
