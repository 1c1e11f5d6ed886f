// An answerer without memory.
use oracle_iface::{CellValue, Key};
use seqs::Arc;
use session_core::Answerer;
use std::alloc::AllocError;

/// An answerer without memory, which knows whether it was asked.
#[derive(Drop)]
pub(crate) struct NoMemory {
    pub asked: bool,
}

impl Answerer for NoMemory {
    ghost may_answer = { λ s k. Unit {0} };

    ghost answers = { λ s k r t. Unit {0} };

    fn cell(&mut self, _key: Key) -> Result<Arc<CellValue>, AllocError> {
        self.asked = true;
        Err(AllocError)
    }
}
