//! Faces, degeneracies and boundaries of the simplices of a space.
#![tactic(auto)]

mod bases;
mod boundaries;
mod bundles;
mod faces;
mod laws;
mod spheres;
mod suspensions;
mod term_faces;

pub use boundaries::boundary;
pub use laws::quoted_chains;
pub use term_faces::{TermFaces, faces_of};
