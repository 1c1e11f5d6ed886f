// The cells of keys by the engine.
ghost use Rattle.force_engine.specs.Fronts.{IfTold, IsFree};
ghost use Rattle.kernel_run.specs.Forcing.{IsKept, SettlesAtOk};

use force_engine::{Engine, Steps};
use oracle_iface::{CellValue, Key, Memo, RuleSet};
use seqs::Arc;
use session_core::Answerer;
use std::alloc::{AllocError, Global};
use std::sync::ledger::Ledger;

/// What forces each key over the memo that its engine was lent. Nobody reads the steps that it counts.
#[derive(Drop)]
pub(crate) struct ByEngine<'a, 's, R, M, L: Ledger> {
    pub alloc: Global,
    pub engine: Engine<'a, R, M>,
    pub steps: &'s mut Steps<L>,
}

impl<'a, 's, R: RuleSet, M: Memo, L: Ledger> Answerer for ByEngine<'a, 's, R, M, L> {
    ghost may_answer = { λ s k. R.treats s.engine.rules.now k × IfTold (IsFree (M.seat s.engine.memo.now) M.shard k) (M.fronts s.engine.memo.now) };

    ghost answers = { λ s k r t.
        IsKept M.seat M.shard M.fronts M.origin s.engine.rules.now t.engine.rules.now s.engine.memo.ghost_name t.engine.memo.ghost_name
        s.engine.memo.now t.engine.memo.now s.steps.now t.steps.now
        × SettlesAtOk M.seat M.shard M.fronts M.origin k r s.engine.memo.now t.engine.memo.now };

    fn cell(&mut self, key: Key) -> Result<Arc<CellValue>, AllocError> {
        self.engine.force(self.alloc, key, self.steps)
    }
}
