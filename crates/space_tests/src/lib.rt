//! Tests of spaces, from outside: faces, degeneracies and boundaries, twisting operators of cocycles, and the Eilenberg-Zilber maps of pairs of
//! spaces, each with values worked by hand.
#![tactic(auto)]

mod simplices;

pub use simplices::edge;

#[cfg(test)]
mod cocycle_tests;
#[cfg(test)]
mod face_tests;
#[cfg(test)]
mod integer_pair_tests;
#[cfg(test)]
mod pair_face_tests;
#[cfg(test)]
mod texts;
#[cfg(test)]
mod torus_map_tests;
#[cfg(test)]
mod torus_tests;
#[cfg(test)]
mod value_tests;
#[cfg(test)]
mod word_tests;
