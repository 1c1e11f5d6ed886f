//! Forcing keys over a table of results: a key that is published there is taken from it, and every other one comes from its rule
//! and is published (after the lazy evaluation of Kenzo's objects).
#![tactic(auto)]

mod engine;
mod forcing;
mod laws;
mod steps;

pub use engine::{Engine, new_engine};
pub use laws::{settled_for_another, way_laws};
pub use steps::Steps;
