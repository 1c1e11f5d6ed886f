//! The Eilenberg-Zilber maps on pairs of simplices of the code, as a reduction.
#![tactic(auto)]

mod fronts;
mod laws;
mod pair_faces;
mod pairs;
mod shuffles;
mod tensor_faces;

pub use fronts::aw;
pub use laws::pairs_meet;
pub use pairs::Pairs;
pub use shuffles::eml;
pub use tensor_red::Tensor;
