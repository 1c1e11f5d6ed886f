// What a session asks.
ghost use Rattle.std.specs.Prelude.{◌≡◌, Result, IfOk};
ghost use Rattle.std.specs.declared.alloc.AllocError.{AllocError};
ghost use Rattle.oracle_iface.specs.declared.keys.Key.{Key};
ghost use Rattle.oracle_iface.specs.declared.cell_values.CellValue.{CellValue};

use oracle_iface::{CellValue, Key};
use seqs::Arc;
use std::alloc::AllocError;

/// What gives a session the cell of each key that it may be asked for. It changes with each call.
pub trait Answerer {
    /// Which keys it may be asked for.
    ghost may_answer: { Self → Key → Type 0 };

    /// A state, the key that was asked for, the answer and the state after it.
    ghost answers: { Self → Key → Result CellValue AllocError → Self → Type 0 };

    /// The cell of a key that it may be asked for.
    fn cell(&mut self, key: Key) -> Result<Arc<CellValue>, AllocError>
        requires { may_answer self.old key }
        ensures key { IfOk result (λ v. v.key ≡ key) }
        ensures call { answers self.old key result self.new };
}
