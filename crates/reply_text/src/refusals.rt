// Why a line has no other reply.
use fp_field::Fp;
use oracle_iface::{Key, Kind};
use seqs::Arc;
use term_lang::{Cell, Name, Term};

/// Why a line has no other reply, one variant for each text, with what the text shows.
#[derive(Debug, Drop)]
pub enum Refusal {
    /// The line is no line of the grammar.
    Syntax,
    /// The line has a construction that is not built yet.
    NotBuilt,
    /// No space has this name.
    UnknownName(Name),
    /// This number is none of the eight primes.
    Field(u64),
    /// A table without a row of dimension 0.
    NoVertex,
    /// The row with this number, from 0, has no dimension, or a face of it has a wrong degree.
    BadDimension(u32),
    /// No earlier row has the name in this face of this row.
    UnknownCell(u32, u32),
    /// The faces i below j of this row break the law d_i d_j = d_(j-1) d_i.
    FaceLaw(u32, u32, u32),
    /// A table of more than 256 rows.
    TooManyCells(u64),
    /// An earlier row has the name of this row.
    DuplicateCell(u32),
    /// The pair with this number, from 1, names no cell of dimension 2 of the base.
    CocycleUnknown(u64),
    /// An earlier pair names the cell of this pair, counted from 1.
    CocycleRepeated(u64),
    /// The values of a cocycle do not add up to 0 on this row.
    NotClosed(u32, i64),
    /// A term that is deeper than 8.
    TooDeep(u32),
    /// The part of a suspension, loop or path space has so many vertices.
    NotOneVertex(u64),
    /// The part of a loop or path space has an edge: its lowest positive degree.
    NotOneReduced(u32),
    /// The base of a bundle is neither a table nor a sphere.
    BaseNotTable,
    /// A sphere whose dimension is not from 1 to 16.
    BadSphere(u64),
    /// A degree above 16.
    Degree(u64),
    /// The term of the chain with this number, from 1, has no simplex of the space in the degree.
    Simplex(u64),
    /// The chain is no cycle: the first term of its boundary, in this space.
    NotCycle(Arc<Term>, Fp, Cell),
    /// A limit is passed, by the value or cell of this key or else by a chain: kind and size.
    Over(Option<Key>, Kind, u64),
}
