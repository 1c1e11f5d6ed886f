//! Which constructions there is code for, the normal forms of their simplices, and pairs of simplices in normal form. A function with an
//! empty body is a law: its contract says it.
#![tactic(auto)]

mod laws;
mod pairs;

pub use laws::{
    built_normal_forms, pair_sizes, pairs_of_bundles, pairs_of_products, suspension_normal_forms,
};
pub use pairs::{paired, parts_of};
