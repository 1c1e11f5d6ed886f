// Why a command is not evaluated to its end.
ghost use Rattle.std.specs.Prelude.{◌≡◌};
ghost use Rattle.session_core.specs.declared.stops.Stop.TheVariants.{Memory};

use reply_text::Refusal;
use std::alloc::{AllocError, AllocFailed};

/// Why a command is not evaluated to its end: its first fault, or want of memory.
#[derive(Debug, Drop)]
pub enum Stop {
    Refused(Refusal),
    Memory,
}

impl From<AllocError> for Stop {
    ghost from_gives = { λ _ e. e ≡ Memory };

    fn from(_e: AllocError) -> Stop {
        Stop::Memory
    }
}

impl<T: Drop> From<AllocFailed<T>> for Stop {
    ghost from_gives = { λ _ e. e ≡ Memory };

    fn from(_e: AllocFailed<T>) -> Stop {
        Stop::Memory
    }
}
