// The engine over two desks of one table, and a rule of the tests.
ghost use Rattle.fp_field.specs.declared.prime.Prime.TheVariants.{Three};
ghost use Rattle.force_engine.specs.Fronts.{IfTold, IsFree};
ghost use Rattle.memo_shared.specs.Shared.{fronts_of, IsOf};
ghost use Rattle.oracle_iface.specs.Keys.{key_of, needs_of, IsValidKey};
ghost use Rattle.oracle_iface.specs.Stands.{IsOutcome};
ghost use Rattle.oracle_iface.specs.declared.bodies.Body.TheVariants.{Cells as CellsBody};
ghost use Rattle.oracle_iface.specs.declared.bodies.Outcome.TheVariants.{Value as IsValue};
ghost use Rattle.spaces.specs.Spaces.{sphere};
ghost use Rattle.std.specs.Prelude.{◌≡◌, ◌<◌, ℕ, [], Contains, IfOk};
ghost use Rattle.values.specs.Asks.{basis};

use crate::tables::opened;
use force_engine::{Steps, new_engine};
use fp_field::Prime;
use memo_shared::{Desk, MemoPass, SharedMemo};
use oracle_iface::{Body, CellValue, Forcer, Key, Memo, Op, Outcome, Place, RuleSet};
use seqs::{Arc, new_seq};
use std::alloc::{AllocError, Global};
use std::marker::Brand;
use std::sync::Wait;
use std::sync::ledger::{Blank, Ledger};
use term_lang::Term;

/// The rule of keys that need nothing and come to no small cells, or one that finds no memory.
#[derive(Clone, Copy)]
struct NoCells {
    has_memory: bool,
}

impl RuleSet for NoCells {
    ghost treats = { λ s k. IsValidKey k × (IsOutcome k (IsValue (CellsBody [])) × ((q : _) → Contains (needs_of k) q → ⊥)) };

    ghost valid = { λ s k is. is.0 };

    ghost lower = { λ s k q is needed. absurd (is.1.1 q needed) };

    ghost back = { λ s k q is needed. absurd (is.1.1 q needed) };

    fn rule<F: Forcer>(
        &self,
        alloc: Global,
        _key: &Key,
        _forcer: &mut F,
    ) -> Result<Outcome, AllocError> {
        if self.has_memory {
            Ok(Outcome::Value(Body::Cells(new_seq(alloc))))
        } else {
            Err(AllocError)
        }
    }
}

/// The key of the small cells of degree 4 of the sphere of dimension 2, over F_3, of which there are none.
fn high_key(alloc: Global) -> Result<Key, AllocError>
    ensures { IfOk result (λ k. k ≡ key_of Three (basis (sphere 2) 4)) }
{
    Ok(Key {
        op: Op::Basis,
        prime: Prime::Three,
        place: Place::Degree(4),
        term: Arc::new(alloc, Term::Sphere(2))?,
    })
}

/// Forces a key by an engine of its own, whose steps nobody reads.
fn forced<R: RuleSet, M: Memo, L: Ledger>(
    alloc: Global,
    rules: &R,
    memo: &mut M,
    key: Key,
    blank: Blank,
) -> Result<Arc<CellValue>, AllocError>
    requires treats { R.treats rules.now key }
    requires free { IfTold (IsFree (M.seat memo.old) M.shard key) (M.fronts memo.old) }
    requires blank { (blank.name ≡ L.name) × (blank.parts ≡ L.parts) × (0 < blank.parts) }
    ensures key { IfOk result (λ v. v.key ≡ key) }
{
    let mut steps: Steps<L> = Steps::new(blank);
    let mut engine = new_engine(rules, memo);
    engine.force(alloc, key, &mut steps)
}

/// Forces the key of no cells over a desk. The pass has seen nothing.
fn force_high<W: Wait>(
    alloc: Global,
    rules: &NoCells,
    desk: &mut Desk<'_, W>,
) -> Result<Arc<CellValue>, AllocError>
    requires { (shard : ℕ) → fronts_of desk.old.pass.now shard ≡ [] }
{
    let key = high_key(alloc)?;
    forced::<NoCells, Desk<'_, W>, Brand>(alloc, rules, desk, key, Blank::new(1))
}

fn has_no_cells(cell: &CellValue) -> bool {
    match &cell.outcome {
        Outcome::Value(Body::Cells(cells)) => cells.len() == 0,
        _ => false,
    }
}

/// Forces the key of no cells over a desk, and says whether there are none; None for want of memory.
fn found<W: Wait>(alloc: Global, has_memory: bool, desk: &mut Desk<'_, W>) -> Option<bool>
    requires { (shard : ℕ) → fronts_of desk.old.pass.now shard ≡ [] }
{
    match force_high(alloc, &NoCells { has_memory }, desk) {
        Ok(cell) => Some(has_no_cells(cell.get())),
        Err(AllocError) => None,
    }
}

/// What two engines find over two desks of one table, one after the other, by rules that have memory or none.
fn found_in_turn<W: Wait>(
    rt: &W,
    alloc: Global,
    memo: &SharedMemo,
    one: &mut MemoPass,
    two: &mut MemoPass,
    has_memory: [bool; 2],
) -> [Option<bool>; 2]
    requires passes { IsOf memo.now one.old × IsOf memo.now two.old }
    requires fronts { (shard : ℕ) → (fronts_of one.old shard ≡ []) × (fronts_of two.old shard ≡ []) }
{
    let mut first = Desk {
        rt,
        memo,
        pass: one,
    };
    let mut second = Desk {
        rt,
        memo,
        pass: two,
    };
    [
        found(alloc, has_memory[0], &mut first),
        found(alloc, has_memory[1], &mut second),
    ]
}

/// The same over a new table.
fn found_by_both(
    rt: &impl Wait,
    alloc: Global,
    has_memory: [bool; 2],
) -> Option<[Option<bool>; 2]> {
    let (memo, mut one, mut two) = opened(alloc)?;
    Some(found_in_turn(rt, alloc, &memo, &mut one, &mut two, has_memory))
}

#[test]
fn a_published_key_needs_no_rule(rt: HostRuntime) {
    assert_eq!(rt;
        found_by_both(&rt, rt.alloc(), [true, false]),
        Some([Some(true), Some(true)])
    );
}

#[test]
fn a_key_whose_rule_has_no_memory_is_given_back(rt: HostRuntime) {
    assert_eq!(rt;
        found_by_both(&rt, rt.alloc(), [false, true]),
        Some([None, Some(true)])
    );
    assert_eq!(rt;
        found_by_both(&rt, rt.alloc(), [false, false]),
        Some([None, None])
    );
}
