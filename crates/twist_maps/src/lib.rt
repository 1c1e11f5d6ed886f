//! Twisting operators in the words of the code: integer cocycles of degree 2 on a table, and the list of integers that each twists a simplex
//! by (May, Simplicial Objects in Algebraic Topology, chapter IV, 18 and 21).
#![tactic(auto)]

mod checks;
mod laws;
mod twists;
mod values;

pub use checks::check_cocycle;
pub use laws::closed_laws;
pub use twists::cocycle_tau;
