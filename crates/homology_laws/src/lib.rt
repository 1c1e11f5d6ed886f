//! The homology of a space from a reduction of its chains and linear algebra over F_p: the cycles that the kernel lists represent a
//! basis of it. Definitions and laws alone: a function here has an empty body, and its contract is a law.
#![tactic(auto)]

mod cells;
mod counts;
mod fillings;
mod integers;
mod laws;
mod suspensions;
mod tables;

pub use cells::cell_laws;
pub use counts::count_laws;
pub use fillings::filling_laws;
pub use integers::integers_homology;
pub use laws::{listed_homology, reduction_homology};
pub use suspensions::suspension_homology;
pub use tables::{sphere_homology, table_homology};
