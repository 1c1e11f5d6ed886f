// An answerer as what gives the cells of keys to a question.
ghost use Rattle.std.specs.Prelude.{◌≡◌};

use crate::answerer::Answerer;
use oracle_iface::{CellValue, Forcer, Key};
use seqs::Arc;
use std::alloc::AllocError;

/// An answerer that is lent for one question.
#[derive(Drop)]
pub(crate) struct Asker<'a, A> {
    pub answerer: &'a mut A,
}

impl<'a, A: Answerer> Forcer for Asker<'a, A> {
    ghost may_force = { λ s k. A.may_answer s.answerer.now k };

    ghost forces = { λ s k r t. A.answers s.answerer.now k r t.answerer.now × (t.answerer.ghost_name ≡ s.answerer.ghost_name) };

    fn force(&mut self, key: Key) -> Result<Arc<CellValue>, AllocError> {
        self.answerer.cell(key)
    }
}
