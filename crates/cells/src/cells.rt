use seqs::{Box, Seq};
use simp_ops::Degens;

/// The integers of a cell of K(Z,1) or of a cocycle.
pub type IntList = Seq<i64>;

/// The letters of a word of a loop group.
pub type LetterList = Seq<Letter>;

/// The letters of a small word of a loop group.
pub type SmallList = Seq<SmallCell>;

/// A generator of a loop group, a simplex of the space below, or the inverse of one.
#[cycle(cell)]
#[derive(Debug, Drop)]
pub struct Letter {
    pub inverse: bool,
    pub simplex: Simplex,
}

/// A non-degenerate simplex of a space.
#[cycle(cell)]
#[derive(Debug, Drop)]
pub enum Cell {
    /// A row of a table: its dimension and its place in the table, from 0.
    Row(u32, u32),
    /// The vertex of a sphere or a suspension.
    Base,
    /// The other cell of a sphere, with the sphere's dimension.
    Top(u32),
    /// Two simplices of one degree with no common degeneracy: of the parts of a product, or of the
    /// base and the fibre of a twisted product.
    Pair(Box<Simplex>, Box<Simplex>),
    /// The suspension of a cell of positive dimension.
    Up(Box<Cell>),
    /// A cell of K(Z,1), as many integers as its dimension, none of them 0.
    Ints(IntList),
    /// A reduced word of a loop group.
    Word(LetterList),
}

/// A simplex in its normal form: a strictly decreasing word of degeneracies before a cell.
#[cycle(cell)]
#[derive(Debug, Drop)]
pub struct Simplex {
    pub degens: Degens,
    pub cell: Cell,
}

/// A generator of the small complex of a space.
#[derive(Debug, Drop)]
pub enum SmallCell {
    /// A cell of the space itself.
    One(Cell),
    /// Of a product: a generator of the base's and one of the fibre's small complex.
    Pair(Box<SmallCell>, Box<SmallCell>),
    /// Of a suspension.
    Up(Box<SmallCell>),
    /// Of a loop group: a word of generators of degree 2 or more.
    Word(SmallList),
}
