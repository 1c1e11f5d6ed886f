// The engine.
ghost use Rattle.force_engine.specs.Fronts.{Between, IfTold, IsTold, IsFree, IsThere};
ghost use Rattle.force_engine.specs.Ways.{IsSettledAt, WasBegunAt, Went};
ghost use Rattle.oracle_iface.specs.Stands.{IsOutcome};
ghost use Rattle.std.specs.Prelude.{◌≡◌, ◌≢◌, ◌≤◌, IfOk};

use crate::forcing::force_with;
use crate::steps::Steps;
use oracle_iface::{CellValue, Key, Memo, RuleSet};
use seqs::Arc;
use std::alloc::{AllocError, Global};
use std::sync::ledger::Ledger;

/// What gives the cells of keys by rules, over a memo that keeps them.
#[derive(Drop)]
pub struct Engine<'a, R, M> {
    rules: &'a R,
    memo: &'a mut M,
}

/// An engine over these rules and this memo.
pub fn new_engine<'a, R: RuleSet, M: Memo>(rules: &'a R, memo: &'a mut M) -> Engine<'a, R, M>
    ensures rules { result.rules ≡ rules.entry }
    ensures memo { result.memo ≡ memo.entry }
{
    Engine { rules, memo }
}

impl<'a, R: RuleSet, M: Memo> Engine<'a, R, M> {
    /// The cell of a key that there is a rule for, with the outcome that is defined for the key. The seat
    /// may hold neither the key nor a key of a lower rank, where the memo tells its fronts.
    ///
    /// The key is claimed. Where it is published its cell is taken from the memo, and no step is counted.
    /// Where the claim is granted, the key's rule is begun, and what it gives is published; the keys that
    /// the rule asks for, which are of lower rank, are forced in the same way. Where another seat holds the
    /// key, or the table is full, the rule is begun and nothing is published. Each rule that is begun is one
    /// step. Want of memory is the one error: it comes also where a key that was asked for met it, whatever
    /// the rule made of it, and a key that was claimed is then given back.
    ///
    /// Of the fronts, where they are told: they grow by legal entries; each key that this seat published
    /// there, and whose outcome is a value, has all that it needs settled; the seat holds the keys that it
    /// held before, and no others. After an answer the key itself is settled.
    pub fn force<L: Ledger>(
        &mut self,
        alloc: Global,
        key: Key,
        steps: &mut Steps<L>,
    ) -> Result<Arc<CellValue>, AllocError>
        requires treats { R.treats self.old.rules.now key }
        requires free { IfTold (IsFree (M.seat self.old.memo.now) M.shard key) (M.fronts self.old.memo.now) }
        ensures key { IfOk result (λ v. v.key ≡ key) }
        ensures outcome { IfOk result (λ v. IsOutcome key v.outcome) }
        ensures steps { steps.old ≤ steps.new }
        ensures there { IsTold (IsThere M.shard key) (M.fronts self.old.memo.now) → steps.new ≡ steps.old }
        ensures began { steps.new ≢ steps.old → Between (WasBegunAt (M.seat self.old.memo.now) M.shard key) (M.fronts self.old.memo.now) (M.fronts self.new.memo.now) }
        ensures settled { IfOk result (λ _v. Between (IsSettledAt (M.seat self.old.memo.now) M.shard key) (M.fronts self.old.memo.now) (M.fronts self.new.memo.now)) }
        ensures went { Between (Went (M.seat self.old.memo.now) M.shard) (M.fronts self.old.memo.now) (M.fronts self.new.memo.now) }
        ensures seat { M.seat self.new.memo.now ≡ M.seat self.old.memo.now }
        ensures origin { M.origin self.new.memo.now ≡ M.origin self.old.memo.now }
        ensures rules { self.new.rules ≡ self.old.rules }
        ensures loan { self.new.memo.ghost_name ≡ self.old.memo.ghost_name }
    {
        let key = Arc::new(alloc, key)?;
        force_with(alloc, self.rules, self.memo, steps, key)
    }
}
