// Generators of either side of a sum.

/// A generator of the left or of the right part of a sum. Those of the left come first.
#[derive(Debug, PartialEq, Eq, PartialOrd, Ord, Drop)]
pub enum Side<X, Y> {
    Left(X),
    Right(Y),
}
