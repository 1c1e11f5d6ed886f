// Forcing a key by its claim and its rule, which forces what is needed in the same way.
ghost use Rattle.force_engine.specs.Fronts.{Between, IfTold, IsTold, IsFree, IsFreeBelow, IsThere, key_rank};
ghost use Rattle.force_engine.specs.Ways.{Ended, HasValue, IsSettledAt, NeedsSettled, WasBegunAt};
ghost use Rattle.force_engine.specs.Runs.{Ran};
ghost use Rattle.oracle_iface.specs.Forcing.{AsksNeeds, MayForceNeeds};
ghost use Rattle.oracle_iface.specs.Memos.{IsOwn};
ghost use Rattle.oracle_iface.specs.Stands.{IsOutcome};
ghost use Rattle.std.specs.Prelude.{◌≡◌, ◌≢◌, ◌+◌, ◌<◌, IfOk, is_ok, None};

use crate::steps::Steps;
use oracle_iface::{ByCall, CellValue, Claim, Forcer, Key, Memo, Outcome, RuleSet, Ticket};
use seqs::Arc;
use std::alloc::{AllocError, Global};
use std::sync::ledger::Ledger;

/// The cell of a key by its rule. Each key that the rule asks for is forced.
#[cycle(force)]
fn compute<R: RuleSet, M: Memo, L: Ledger>(
    alloc: Global,
    rules: &R,
    memo: &mut M,
    steps: &mut Steps<L>,
    key: Arc<Key>,
) -> Result<Arc<CellValue>, AllocError>
    requires treats { R.treats rules.now key }
    requires free { IfTold (IsFreeBelow (M.seat memo.old) M.shard (key_rank key)) (M.fronts memo.old) }
    ensures key { IfOk result (λ v. v.key ≡ key) }
    ensures ran { Ran M.seat M.shard M.fronts M.origin memo.old memo.new (steps.old + 1) steps.new }
    ensures needs { IfOk result (λ _v. HasValue key → Between (NeedsSettled (M.seat memo.old) M.shard key) (M.fronts memo.old) (M.fronts memo.new)) }
{
    let top = &key;
    steps.tick();
    let mut lacked: Option<AllocError> = None;
    let mut lower = ByCall {
        call: |needed: Key| -> Result<Arc<CellValue>, AllocError>
            requires lower { key_rank needed < key_rank top.now }
            requires treats { R.treats rules.now needed }
            requires free { IfTold (IsFreeBelow (M.seat memo.now) M.shard (key_rank top.now)) (M.fronts memo.now) }
            ensures key { IfOk result (λ v. v.key ≡ needed) }
            ensures ran { Ran M.seat M.shard M.fronts M.origin memo.entry.now memo.exit.now steps.entry.now steps.exit.now }
            ensures settled { lacked.exit ≡ None → (lacked.entry ≡ None) × Between (IsSettledAt (M.seat memo.entry.now) M.shard needed) (M.fronts memo.entry.now) (M.fronts memo.exit.now) }
        {
            let _top = top;
            let needed = match Arc::new(alloc, needed) {
                Ok(shared) => shared,
                Err(refused) => {
                    lacked = Some(refused);
                    return Err(refused);
                }
            };
            match force_with(alloc, rules, memo, steps, needed) {
                Ok(value) => Ok(value),
                Err(error) => {
                    lacked = Some(error);
                    Err(error)
                }
            }
        },
    };
    let outcome = apply(alloc, rules, top, &mut lower)?;
    match lacked {
        Some(error) => return Err(error),
        None => {}
    }
    Arc::new(alloc, CellValue { key, outcome })
}

/// The cell of a key: the one that is published, or else by its rule.
#[cycle(force)]
pub(crate) fn force_with<R: RuleSet, M: Memo, L: Ledger>(
    alloc: Global,
    rules: &R,
    memo: &mut M,
    steps: &mut Steps<L>,
    key: Arc<Key>,
) -> Result<Arc<CellValue>, AllocError>
    requires treats { R.treats rules.now key }
    requires free { IfTold (IsFree (M.seat memo.old) M.shard key) (M.fronts memo.old) }
    ensures key { IfOk result (λ v. v.key ≡ key) }
    ensures ran { Ran M.seat M.shard M.fronts M.origin memo.old memo.new steps.old steps.new }
    ensures there { IsTold (IsThere M.shard key) (M.fronts memo.old) → steps.new ≡ steps.old }
    ensures began { steps.new ≢ steps.old → Between (WasBegunAt (M.seat memo.old) M.shard key) (M.fronts memo.old) (M.fronts memo.new) }
    ensures settled { IfOk result (λ _v. Between (IsSettledAt (M.seat memo.old) M.shard key) (M.fronts memo.old) (M.fronts memo.new)) }
{
    match memo.claim(&key)? {
        Claim::Present(value) => Ok(value),
        Claim::Granted(ticket) => {
            let found = compute(alloc, rules, memo, steps, key);
            settle(memo, ticket, found)
        }
        Claim::Busy(_) => compute(alloc, rules, memo, steps, key),
        Claim::Full(_) => compute(alloc, rules, memo, steps, key),
    }
}

/// What a key comes to, by its rule.
fn apply<R: RuleSet, F: Forcer>(
    alloc: Global,
    rules: &R,
    key: &Arc<Key>,
    forcer: &mut F,
) -> Result<Outcome, AllocError>
    requires key { R.treats rules.now key.now }
    requires forcer { MayForceNeeds F.may_force F.forces key.now forcer.old }
    ensures outcome { IfOk result (λ o. IsOutcome key.now o) }
    ensures asked { AsksNeeds F.forces key.now forcer.old forcer.new result }
{
    rules.rule(alloc, key.get(), forcer)
}

/// Ends a ticket: publishes what was found, or gives the key back.
fn settle<M: Memo>(
    memo: &mut M,
    ticket: Ticket,
    found: Result<Arc<CellValue>, AllocError>,
) -> Result<Arc<CellValue>, AllocError>
    requires value { IfOk found (λ v. v.key ≡ ticket.key) }
    requires own { IsOwn (M.seat memo.old) (M.shard ticket.key) (M.fronts memo.old) ticket }
    ensures key { IfOk result (λ v. v.key ≡ ticket.key) }
    ensures seat { M.seat memo.new ≡ M.seat memo.old }
    ensures origin { M.origin memo.new ≡ M.origin memo.old }
    ensures ended { Ended (M.seat memo.old) (M.shard ticket.key) ticket.key (M.fronts memo.old) (M.fronts memo.new) (is_ok found) (is_ok result) }
{
    let value = match found {
        Ok(value) => value,
        Err(error) => {
            memo.release(ticket);
            return Err(error);
        }
    };
    let copy = match value.clone() {
        Ok(copy) => copy,
        Err(error) => {
            memo.release(ticket);
            return Err(error);
        }
    };
    memo.publish(ticket, copy);
    Ok(value)
}
