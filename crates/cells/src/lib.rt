//! Cells, simplices and small cells: their types, copies, dimensions and orders.
#![tactic(auto)]

mod cells;
mod copies;
mod dims;
mod equal;
mod hashes;
mod laws;
mod order;
mod small;

pub use cells::{Cell, IntList, Letter, LetterList, Simplex, SmallCell, SmallList};
pub use copies::{copy_cell, copy_letters, copy_simplex, copy_small};
pub use dims::{degree, dim};
pub use laws::{one_key, order_in_words};
pub use small::small_degree;
