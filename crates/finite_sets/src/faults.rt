// Why rows as they are written are no table, and the checks of the whole list.
ghost use Rattle.std.specs.Prelude.{◌≡◌};
ghost use Rattle.std.specs.List.{list_any};
ghost use Rattle.finite_sets.specs.Faults.{is_vertex, list_fault};

use std::alloc::{AllocError, AllocFailed};
use term_lang::RowTextList;
use thiserror::Error;

/// Why rows as they are written are no table. Rows and faces are numbered from 0.
#[derive(Clone, Copy, Debug, PartialEq, Eq, Error)]
pub enum TableFault {
    /// No row is without faces.
    #[error("NoVertex")]
    NoVertex,
    /// A row has one face or more than 17, or a face that is no simplex one degree below it.
    #[error("BadDimension")]
    BadDimension(u32),
    /// No row before this one has the name of this face.
    #[error("UnknownCell")]
    UnknownCell(u32, u32),
    /// On this row d_i d_j is not d_{j-1} d_i.
    #[error("FaceLaw")]
    FaceLaw(u32, u32, u32),
    /// There are so many rows, more than 256.
    #[error("TooManyCells")]
    TooManyCells(u64),
    /// A row has the name of an earlier one.
    #[error("DuplicateCell")]
    DuplicateCell(u32),
    /// Want of memory.
    #[error("Memory")]
    Memory,
}

impl From<AllocError> for TableFault {
    ghost use Rattle.finite_sets.specs.declared.faults.TableFault.TheVariants.{Memory};

    ghost from_gives = { λ _ fault. fault ≡ Memory };

    fn from(_error: AllocError) -> TableFault {
        TableFault::Memory
    }
}

impl<T: Drop> From<AllocFailed<T>> for TableFault {
    ghost use Rattle.finite_sets.specs.declared.faults.TableFault.TheVariants.{Memory};

    ghost from_gives = { λ _ fault. fault ≡ Memory };

    fn from(_failed: AllocFailed<T>) -> TableFault {
        TableFault::Memory
    }
}

fn has_vertex(rows: &RowTextList) -> bool
    ensures { result ≡ list_any is_vertex rows.now }
{
    for r in 0..rows.len() {
        if rows.get(r).unwrap().faces.len() == 0 {
            return true;
        }
    }
    false
}

const MOST_ROWS: usize = 256;

/// The first fault of the whole list.
pub fn list_fault(rows: &RowTextList) -> Option<TableFault>
    ensures { result ≡ list_fault rows.now }
{
    if rows.len() > MOST_ROWS {
        return Some(TableFault::TooManyCells(rows.len() as u64));
    }
    if has_vertex(rows) {
        None
    } else {
        Some(TableFault::NoVertex)
    }
}
