// The replies of a session.
use crate::lists::{NameList, NumberList};
use crate::refusals::Refusal;
use chain_core::Chain;
use elim_fp::FpRow;
use fp_field::Prime;
use oracle_iface::ChainList;
use seqs::Arc;
use term_lang::{Cell, Name, Term};

/// The reply to one line.
#[derive(Debug, Drop)]
pub enum Reply {
    /// A line without a command has no reply.
    Empty,
    /// Chains are over this field from here on.
    Field(Prime),
    /// A space has this name from here on.
    Defined(Name),
    /// The names in order of their first definition.
    Names(NameList),
    /// The dimensions of homology, degree by degree.
    Betti(NumberList),
    /// The cycles of a space that stand for a basis of its homology in a degree.
    Homology(Arc<Term>, ChainList),
    /// The boundary of a chain of a space.
    Boundary(Arc<Term>, Chain<Cell>),
    /// The coefficients of a cycle over the listed ones, and a chain whose boundary is the rest.
    Express(Arc<Term>, FpRow, Chain<Cell>),
    /// Why there is no other reply.
    Refused(Refusal),
}
