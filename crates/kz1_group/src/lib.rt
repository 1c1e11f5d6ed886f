//! Integer lists as a simplicial group, the nerve of the integers, and the normal forms of K(Z,1).
#![tactic(auto)]

mod groups;
mod lists;
mod simplices;

pub use groups::{ints_inv, ints_mul};
pub use lists::{ints_face, ints_norm};
pub use simplices::{integers_normal_forms, ints_simplex_face};
