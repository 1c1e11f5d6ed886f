//! Elimination over F_p: sparse rows, reduced echelon bases, and coordinates over them.
#![tactic(auto)]

mod bases;
mod complements;
mod eliminate;
mod kernels;
mod matrix;
mod parts;
mod rows;
mod tables;
mod transposes;

pub use bases::{SolveFault, echelon, leading_entries, rank, remainder, solve};
pub use complements::complement;
pub use kernels::{kernel, relations};
pub use matrix::{Echelon, Matrix, matrix_of};
pub use rows::{FpRow, FpRowList, row_of};
