// What a key comes to: a value, or the first key past a limit.
ghost use Rattle.std.specs.Prelude.{◌≡◌, IfOk};

use crate::chains::ChainList;
use crate::keys::{Key, copy_key};
use chain_core::Chain;
use std::alloc::{AllocError, Global};
use term_lang::{Cell, SmallCell, SmallList};

/// What a limit is on.
#[derive(Clone, Copy, Debug, PartialEq, Eq, PartialOrd, Ord)]
pub enum Kind {
    /// The number of letters of one word.
    Letters,
    /// The magnitude of one integer.
    Integer,
    /// The number of terms of a chain, of cells of a basis, or of chains of a list.
    Terms,
}

/// A key whose own cell or value is past a limit, with the first such kind and the size.
#[derive(Debug, PartialEq, Eq, Drop)]
pub struct Over {
    pub key: Key,
    pub kind: Kind,
    pub size: u64,
}

/// A value.
#[derive(Debug, Drop)]
pub enum Body {
    /// Small cells in order, for `Basis`.
    Cells(SmallList),
    /// A chain of the small complex, for `SmallD` and `F`.
    Small(Chain<SmallCell>),
    /// A chain of the space, for `G` and `H`.
    Big(Chain<Cell>),
    /// Cycles of the space, for `Cycles`.
    Many(ChainList),
}

/// What a key comes to.
#[derive(Debug, Drop)]
pub enum Outcome {
    /// Its value.
    Value(Body),
    /// The first key past a limit that is met on the way to its value, its own included.
    Over(Over),
}

/// A copy of a refusal.
pub fn copy_over(alloc: Global, over: &Over) -> Result<Over, AllocError>
    ensures { IfOk result (λ copy. copy ≡ over.now) }
{
    Ok(Over {
        key: copy_key(alloc, &over.key)?,
        kind: over.kind,
        size: over.size,
    })
}
