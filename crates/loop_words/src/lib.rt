//! Reduced words of letters as a simplicial group, and the normal forms of loop groups. A function with an empty body is a law: its
//! contract says it.
#![tactic(auto)]

mod faces;
mod groups;
mod laws;
mod norms;
mod stacks;

pub use faces::word_face;
pub use groups::{word_inv, word_mul, word_reduce};
pub use laws::{
    letters_of_built, loop_base_is_the_empty_word, loop_cells_are_words, reduced_words_are_apart,
    words_are_a_group, words_in_spaces,
};
pub use norms::word_norm;
