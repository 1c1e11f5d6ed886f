//! The laws of loop words: Fox's expansion takes the words of a loop group to pairs of a letter and a
//! word, and the differential of words to that of pairs with the twist of the letters.
//!
//! This crate has definitions and laws alone. A function here has an empty body, and its contract is a
//! law. The lemmas hold for the letters of any simplicial set, and that of `unfox` for any twisting
//! operator; the functions state them for the spaces.
#![tactic(auto)]

mod fox;
mod letters;
mod words;

pub use fox::{
    fox_carries_differentials, fox_is_inverse, fox_respects_degeneracies, words_reduce_to_pairs,
};
pub use letters::{
    letter_pairs_are_a_complex, letter_twist_lowers_by_two, letter_twist_lowers_left,
};
pub use words::words_degenerate_by_letters;
