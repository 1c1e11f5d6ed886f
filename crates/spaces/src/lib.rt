//! Definitions of simplicial sets, their normalised chains and their homology over F_p, and the laws of these.
//!
//! This crate has definitions and laws alone. Each space is a construction on abstract parts, one file of `specs/` for each; a
//! function here has an empty body, and its contract is a law.
#![tactic(auto)]

mod allowed;
mod bundles;
mod counts;
mod laws;
mod loops;
mod spheres;

pub use allowed::space_laws;
pub use bundles::{bundle_laws, cocycle_laws, cyclic_bundle_laws, cyclic_cocycle_laws};
pub use counts::count_laws;
pub use laws::{
    integers_group, integers_laws, product_laws, residues_group, residues_laws, sphere_laws,
    suspension_laws, table_laws,
};
pub use loops::{letter_laws, loop_group_laws, loop_laws, path_laws, reduced_word_laws};
pub use spheres::sphere_homology;
