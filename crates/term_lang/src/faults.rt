// Why a term names no space.
use thiserror::Error;

/// Why a term names no space.
#[derive(Clone, Copy, Debug, PartialEq, Eq, Error)]
pub enum TermFault {
    /// The depth is this number, above 8.
    #[error("TooDeep")]
    TooDeep(u32),
    /// The part of a suspension, a loop group or a path space has not one vertex but this many, or
    /// 65,536 where there are more.
    #[error("NotOneVertex")]
    NotOneVertex(u64),
    /// The part of a loop group or a path space has an edge that is not degenerate: its low is 1.
    #[error("NotOneReduced")]
    NotOneReduced(u32),
    /// The dimension of a sphere is 0 or above 16.
    #[error("BadSphere")]
    BadSphere(u32),
    /// The values of a bundle are no cocycle: the first row, from 0, that has no value, or one that
    /// is not 0 though its dimension is not 2, or one above 100,000 in magnitude, or on whose faces
    /// the alternating sum is not 0; or the number of rows, where there are more values.
    #[error("BadCocycle")]
    BadCocycle(u32),
}
