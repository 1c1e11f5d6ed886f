//! Perturbed reductions over F_p: what becomes of a reduction when something is added to the differential of its big complex (the basic
//! perturbation lemma).
#![tactic(auto)]

mod along;
mod chain_maps;
mod delta;
mod laws;
mod perturbed;
pub mod series;

pub use along::{d_along, g_along, transferred_along};
pub use chain_maps::{ChainMap, OnKeys};
pub use delta::{MapDelta, Perturb};
pub use laws::perturbed_meets;
pub use perturbed::{perturbed_d, perturbed_f, perturbed_g, perturbed_h, transferred};
