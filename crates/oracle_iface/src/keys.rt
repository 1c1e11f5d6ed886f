// Keys: what may be asked about the reduction of a space.
ghost use Rattle.std.specs.Prelude.{◌≡◌, IfOk};

use fp_field::Prime;
use seqs::Arc;
use std::alloc::{AllocError, Global};
use term_lang::{Cell, SmallCell, Term, copy_cell, copy_small};

/// What is asked of a space: its small cells of a degree, the small differential, the maps F, G and H
/// of its reduction, and the cycles that stand for its homology in a degree.
#[derive(Clone, Copy, Debug, PartialEq, Eq, PartialOrd, Ord, Hash)]
pub enum Op {
    /// The small cells of a degree.
    Basis,
    /// The differential of the small complex, at a small cell.
    SmallD,
    /// The map from the space's chains to the small complex, at a cell.
    F,
    /// The map from the small complex to the space's chains, at a small cell.
    G,
    /// The homotopy, at a cell.
    H,
    /// The listed cycles of a degree.
    Cycles,
}

/// Where it is asked.
#[derive(Debug, PartialEq, Eq, PartialOrd, Ord, Hash, Drop)]
pub enum Place {
    /// A degree, for `Basis` and `Cycles`.
    Degree(u32),
    /// A small cell, for `SmallD` and `G`.
    Small(SmallCell),
    /// A cell of the space, for `F` and `H`.
    Big(Cell),
}

/// A question: an operation at a place of a space, over F_p. Keys are equal where their contents are.
/// They are ordered by operation, prime, place and then term, so that terms, which are shared and
/// large, are compared last.
#[derive(Debug, PartialEq, Eq, PartialOrd, Ord, Hash, Drop)]
pub struct Key {
    pub op: Op,
    pub prime: Prime,
    pub place: Place,
    pub term: Arc<Term>,
}

/// A copy of a place.
fn copy_place(alloc: Global, place: &Place) -> Result<Place, AllocError>
    ensures { IfOk result (λ copy. copy ≡ place.now) }
{
    match place {
        Place::Degree(n) => Ok(Place::Degree(*n)),
        Place::Small(y) => Ok(Place::Small(copy_small(alloc, y)?)),
        Place::Big(x) => Ok(Place::Big(copy_cell(alloc, x)?)),
    }
}

/// A copy of a key, which shares its term.
pub fn copy_key(alloc: Global, key: &Key) -> Result<Key, AllocError>
    ensures { IfOk result (λ copy. copy ≡ key.now) }
{
    Ok(Key {
        op: key.op,
        prime: key.prime,
        place: copy_place(alloc, &key.place)?,
        term: key.term.clone()?,
    })
}
