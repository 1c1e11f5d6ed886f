//! Reduced echelon bases over F_p: their uniqueness, coordinates, complements and counts. Definitions and laws alone.
#![tactic(auto)]

mod laws;

pub use laws::{
    echelon_complement, echelon_coordinates, echelon_counts, echelon_is_unique, subspace_bases,
};
