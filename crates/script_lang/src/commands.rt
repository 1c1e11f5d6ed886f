// Commands as they are written.
use crate::exprs::Expr;
use crate::simplices::ChainText;
use term_lang::Name;

/// What a line asks for. Degrees and dimensions are as they are written, below 10^18.
#[derive(Debug, PartialEq, Eq, Drop)]
pub enum Command {
    /// `(field 3)`: go over to this field.
    Field(u64),
    /// `(setf x a)`: name a space.
    Setf(Name, Expr),
    /// `(names)`: list the names.
    Names,
    /// `(betti a 0 3)`: the Betti numbers of a space from one degree to another.
    Betti(Expr, u64, u64),
    /// `(homology a 3)`: cycles whose classes are a basis of the homology in this degree.
    Homology(Expr, u64),
    /// `(boundary a 3 c)`: the boundary of a chain of this degree.
    Boundary(Expr, u64, ChainText),
    /// `(express a 3 c)`: the class of a cycle of this degree by the listed cycles.
    Express(Expr, u64, ChainText),
}
