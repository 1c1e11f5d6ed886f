//! Tensor products of chains and of reductions.
#![tactic(auto)]

mod laws;
mod products;
mod reduction;
mod tensors;

pub use laws::tensor_meets;
pub use products::product_of;
pub use reduction::{TensorReduction, tensor_reduction};
pub use tensors::Tensor;
