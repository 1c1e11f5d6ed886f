//! The rules of products and of circle bundles on cells of the code.
#![tactic(auto)]

mod bases;
mod found_at;
mod laws;
mod outcomes;
mod part_maps;
mod part_terms;
mod places;
mod rules;
mod small_pairs;

pub use laws::{assembled_values, part_needs};
pub use rules::rule;
