//! Products and circle bundles on chains of the code: the twist of a bundle on cells, as what is added to the differential of pairs too, and
//! the first perturbation, by which the Eilenberg-Zilber maps become those of the twisted product.
#![tactic(auto)]

mod deltas;
mod fibred;
mod fibres;
mod first;
mod steps;
mod twists;

pub use deltas::BundleTwist;
pub use fibred::{Fibred, widened};
pub use fibres::ints_of;
pub use first::{difference, first_homotopy, lifted, to_tensors};
pub use steps::{FlowMap, FrontMap, ShuffleMap, TwistMap};
pub use twists::bundle_twist;
