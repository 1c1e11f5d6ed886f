//! Reductions of chain complexes over F_p, and how new ones are made from given ones.
#![tactic(auto)]

mod chains;
mod composed;
mod identity;
mod laws;
mod reduction;
mod shifted;
mod sides;
mod summed;

pub use chains::{apply, negated, sum_of};
pub use composed::Composed;
pub use identity::Identity;
pub use laws::{
    composed_meets, identity_meets, shifted_down_meets, shifted_up_meets, summed_meets,
};
pub use reduction::{MapF, MapG, MapH, Reduction};
pub use shifted::Shifted;
pub use sides::Side;
pub use summed::Summed;
