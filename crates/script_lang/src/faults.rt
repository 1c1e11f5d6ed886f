// Why a line is refused.
ghost use Rattle.std.specs.Prelude.{◌≡◌};
ghost use Rattle.script_lang.specs.declared.faults.Stop.TheVariants.{Memory};

use std::alloc::{AllocError, AllocFailed};

/// What is wrong at the place of a fault.
#[derive(Clone, Copy, Debug, PartialEq, Eq)]
pub enum SyntaxKind {
    /// No line goes on from the byte there.
    Unexpected,
    /// The line is over, and lines that begin so go on.
    Unfinished,
    /// The line has more bytes than lines may have.
    Long,
}

/// Where a line goes wrong, and how.
#[derive(Clone, Copy, Debug, PartialEq, Eq)]
pub struct SyntaxFault {
    /// The place, from 1 to 65,537: that of the first byte with which no line begins, or one behind
    /// the end of the line.
    pub column: u64,
    pub kind: SyntaxKind,
}

/// Why a line is not read.
#[derive(Clone, Copy, Debug, PartialEq, Eq)]
pub enum LineRefused {
    /// The line is neither a command nor a line without one, and goes wrong here.
    Syntax(SyntaxFault),
    /// Want of memory.
    Memory,
}

/// Why the reader stops: no memory, or a fault with so many bytes left, the faulty one among them.
#[derive(Debug, Drop)]
pub enum Stop {
    Fault(usize),
    Memory,
}

impl From<AllocError> for Stop {
    ghost from_gives = { λ _ e. e ≡ Memory };

    fn from(_e: AllocError) -> Stop {
        Stop::Memory
    }
}

impl<T: Drop> From<AllocFailed<T>> for Stop {
    ghost from_gives = { λ _ e. e ≡ Memory };

    fn from(_e: AllocFailed<T>) -> Stop {
        Stop::Memory
    }
}
