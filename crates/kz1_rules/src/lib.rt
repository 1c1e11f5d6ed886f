//! The rule of K(Z,1): its cells are the lists of integers without a 0, and the reduction to the circle turns a list |a| into a times
//! the edge (Eilenberg and Mac Lane, On the groups H(Pi,n), I; Kenzo documentation, 1999, on K(Z,1)).
#![tactic(auto)]

mod direct;
mod early;
mod homotopy;
mod laws;
mod maps;
mod places;
mod rules;

pub use direct::integers_value;
pub use laws::shown_laws;
pub use rules::rule;
