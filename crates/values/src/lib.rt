//! Questions about the reduction of a space, the right sides that answer them, and their values, needs, limits and outcomes.
//!
//! This crate has definitions and laws alone. A function here has an empty body, and its contract is a law.
#![tactic(auto)]

mod bases;
mod laws;

pub use bases::{
    basis_depth_laws, basis_laws, below_laws, cycles_laws, needs_laws, row_basis_laws,
    simple_space_laws, small_order_laws,
};
pub use laws::{outcome_laws, refusal_laws};
