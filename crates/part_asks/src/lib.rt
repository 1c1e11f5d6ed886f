//! The maps of a tensor product of two reductions, by asking for those of the parts: what comes of an evaluation that asks, the maps of one
//! part at a cell, and G and the homotopy of tensors.
#![tactic(auto)]

mod along;
mod answers;
mod found;
mod parts;
mod signed;
mod sums;
mod tensors;

pub use along::along_g;
pub use answers::{big_answer, small_answer};
pub use found::Found;
pub use parts::{part_f, part_g, part_h, part_small_d};
pub use signed::homotopy;
pub use sums::push_scaled;
pub use tensors::{tensor_g, tensor_t};
