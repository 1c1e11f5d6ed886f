//! The laws of the Eilenberg-Zilber maps: Alexander-Whitney, Eilenberg-Mac Lane and the flow of the
//! vector field are a reduction of the complex of pairs to the tensor complex.
//!
//! This crate has definitions and laws alone. A function here has an empty body, and its contract is a
//! law. The lemmas hold for every left and right part that meet the laws of `specs/Sides`; the
//! functions state them for the spaces.
#![tactic(auto)]

mod letters;
mod pairs;

pub use letters::{letter_flow_is_one, letter_pairs_meet, letters_keep_left, words_are_sides};
pub use pairs::{product_flow_is_one, product_pairs_meet, products_keep_left, spaces_are_sides};
