//! The laws of products and twisted products: their differential, how the twist lowers the left
//! dimension, how the transferred difference lowers the left degree, and that their maps are a
//! reduction where those of base and fibre are.
//!
//! This crate has definitions and laws alone. A function here has an empty body, and its contract is a
//! law. The lemmas hold for any base and fibre with the twisting identities; the functions state them
//! for the spaces.
#![tactic(auto)]

mod bundles;
mod products;
mod reductions;
mod twists;

pub use bundles::{bundles_lower_by_two, bundles_lower_left, bundles_on_pairs};
pub use products::{products_are_untwisted, products_on_pairs};
pub use reductions::{
    assembled_homology, bundle_reduction, fibred_needs, loopless_values, product_reduction,
    twisted_reduction,
};
pub use twists::{twists_lower_by_two, twists_lower_left};
