//! The rules: what each key comes to, from what the keys that it needs come to (Rubio and Sergeraert, Constructive Homological
//! Algebra and Applications, on effective homology).
#![tactic(auto)]

mod direct;
mod laws;
mod outcomes;
mod places;
mod rows;
mod rules;
mod units;

pub use direct::direct_value;
pub use laws::needs_laws;
pub use outcomes::{direct_outcome, within_limits};
pub use rules::Rules;
