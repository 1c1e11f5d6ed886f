// Tensors of two generators.

/// The tensor of two generators. The order is that of the left part, and then that of the right part.
#[derive(Clone, Debug, PartialEq, Eq, PartialOrd, Ord, Drop)]
pub struct Tensor<X, Y> {
    pub left: X,
    pub right: Y,
}
