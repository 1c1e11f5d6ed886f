//! The rule of suspensions: what a key about a suspension comes to, from what the key of its part one degree below comes to (Rubio and
//! Sergeraert, Constructive Homological Algebra and Applications, on suspensions).
#![tactic(auto)]

mod bases;
mod keys;
mod laws;
mod places;
mod raised;
mod rules;
mod ups;

pub use laws::{rule_laws, shown_values};
pub use rules::rule;
