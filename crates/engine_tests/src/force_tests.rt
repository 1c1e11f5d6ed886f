// The engine over a memo and rules of the tests.
ghost use Rattle.fp_field.specs.declared.prime.Prime.TheVariants.{Three};
ghost use Rattle.force_engine.specs.Fronts.{IfTold, IsFree};
ghost use Rattle.oracle_iface.specs.Keys.{key_of, needs_of, IsValidKey};
ghost use Rattle.oracle_iface.specs.Stands.{IsOutcome};
ghost use Rattle.oracle_iface.specs.declared.bodies.Body.TheVariants.{Cells as CellsBody};
ghost use Rattle.oracle_iface.specs.declared.bodies.Outcome.TheVariants.{Value as IsValue};
ghost use Rattle.spaces.specs.Spaces.{sphere};
ghost use Rattle.std.specs.Prelude.{◌≡◌, ◌<◌, [], None, Contains, IfOk};
ghost use Rattle.values.specs.Asks.{basis};

use core_board::interleavings;
use force_engine::{Steps, new_engine};
use fp_field::Prime;
use oracle_iface::{
    Body, CellValue, Claim, Forcer, Key, Memo, Op, Outcome, Place, RuleSet, Ticket,
};
use seqs::{Arc, new_seq};
use std::alloc::{AllocError, Global};
use std::cmp::Ordering;
use std::marker::Brand;
use std::sync::ledger::{Blank, Ledger};
use term_lang::Term;

/// How a memo answers the claim of a key that is not published.
#[derive(Clone, Copy)]
enum Manner {
    Grants,
    IsBusy,
    IsFull,
}

/// A memo that tells no front, keeps the last cell that was published, and counts what is done.
#[derive(Drop)]
struct Shelf {
    manner: Manner,
    cell: Option<Arc<CellValue>>,
    granted: u64,
    published: u64,
    released: u64,
}

impl Shelf {
    fn new(manner: Manner) -> Shelf {
        Shelf {
            manner,
            cell: None,
            granted: 0,
            published: 0,
            released: 0,
        }
    }
}

impl Memo for Shelf {
    type Origin = ();

    ghost seat = { λ s. 0 };

    ghost shard = { λ k. 0 };

    ghost fronts = { λ s. None };

    ghost origin = { λ s. tt };

    fn claim(&mut self, key: &Arc<Key>) -> Result<Claim, AllocError> {
        if let Some(cell) = self.look(key)? {
            return Ok(Claim::Present(cell));
        }
        match self.manner {
            Manner::IsBusy => Ok(Claim::Busy(7)),
            Manner::IsFull => Ok(Claim::Full(65_536)),
            Manner::Grants => {
                let key = key.clone()?;
                self.granted = self.granted.saturating_add(1);
                Ok(Claim::Granted(Ticket { key, seat: 0 }))
            }
        }
    }

    fn publish(&mut self, ticket: Ticket, value: Arc<CellValue>) {
        let Ticket { key: _, seat: _ } = ticket;
        self.published = self.published.saturating_add(1);
        self.cell = Some(value);
    }

    fn release(&mut self, ticket: Ticket) {
        let Ticket { key: _, seat: _ } = ticket;
        self.released = self.released.saturating_add(1);
    }

    fn look(&mut self, key: &Arc<Key>) -> Result<Option<Arc<CellValue>>, AllocError> {
        let Some(cell) = &self.cell else {
            return Ok(None);
        };
        match cell.get().key.cmp(key) {
            Ordering::Equal => Ok(Some(cell.clone()?)),
            Ordering::Less | Ordering::Greater => Ok(None),
        }
    }
}

/// The rule of keys that need nothing and come to no small cells, or one that finds no memory.
#[derive(Clone, Copy)]
struct NoCells {
    has_memory: bool,
}

impl RuleSet for NoCells {
    ghost treats = { λ s k. IsValidKey k × (IsOutcome k (IsValue (CellsBody [])) × ((q : _) → Contains (needs_of k) q → ⊥)) };

    ghost valid = { λ s k is. is.0 };

    ghost lower = { λ s k q is needed. absurd (is.1.1 q needed) };

    ghost back = { λ s k q is needed. absurd (is.1.1 q needed) };

    fn rule<F: Forcer>(
        &self,
        alloc: Global,
        _key: &Key,
        _forcer: &mut F,
    ) -> Result<Outcome, AllocError> {
        if self.has_memory {
            Ok(Outcome::Value(Body::Cells(new_seq(alloc))))
        } else {
            Err(AllocError)
        }
    }
}

/// The key of the small cells of degree 4 of the sphere of dimension 2, over F_3, of which there are none.
fn high_key(alloc: Global) -> Result<Key, AllocError>
    ensures { IfOk result (λ k. k ≡ key_of Three (basis (sphere 2) 4)) }
{
    Ok(Key {
        op: Op::Basis,
        prime: Prime::Three,
        place: Place::Degree(4),
        term: Arc::new(alloc, Term::Sphere(2))?,
    })
}

/// Forces a key by an engine of its own, whose steps nobody reads.
fn forced<R: RuleSet, M: Memo, L: Ledger>(
    alloc: Global,
    rules: &R,
    memo: &mut M,
    key: Key,
    blank: Blank,
) -> Result<Arc<CellValue>, AllocError>
    requires treats { R.treats rules.now key }
    requires free { IfTold (IsFree (M.seat memo.old) M.shard key) (M.fronts memo.old) }
    requires blank { (blank.name ≡ L.name) × (blank.parts ≡ L.parts) × (0 < blank.parts) }
    ensures key { IfOk result (λ v. v.key ≡ key) }
    ensures seat { M.seat memo.new ≡ M.seat memo.old }
{
    let mut steps: Steps<L> = Steps::new(blank);
    let mut engine = new_engine(rules, memo);
    engine.force(alloc, key, &mut steps)
}

/// Forces the key of no cells.
fn force_high(
    alloc: Global,
    rules: &NoCells,
    shelf: &mut Shelf,
) -> Result<Arc<CellValue>, AllocError>
    ensures { IfOk result (λ v. v.key ≡ key_of Three (basis (sphere 2) 4)) }
{
    let key = high_key(alloc)?;
    forced::<NoCells, Shelf, Brand>(alloc, rules, shelf, key, Blank::new(1))
}

fn has_no_cells(cell: &CellValue) -> bool {
    match &cell.outcome {
        Outcome::Value(Body::Cells(cells)) => cells.len() == 0,
        _ => false,
    }
}

/// Forces the key of no cells, and says whether there are none; None for want of memory.
fn found(alloc: Global, shelf: &mut Shelf, has_memory: bool) -> Option<bool> {
    match force_high(alloc, &NoCells { has_memory }, shelf) {
        Ok(cell) => Some(has_no_cells(cell.get())),
        Err(AllocError) => None,
    }
}

/// What comes of forcing the key over a shelf of a manner, once for each rule that has memory or has none: how often no cells are found, how
/// often memory is wanting, and what the shelf has granted, published and taken back.
fn counts(alloc: Global, manner: Manner, memory: &[bool]) -> [u64; 5] {
    let mut shelf = Shelf::new(manner);
    let mut right: u64 = 0;
    let mut refused: u64 = 0;
    for has_memory in memory {
        match found(alloc, &mut shelf, *has_memory) {
            Some(true) => right = right.saturating_add(1),
            Some(false) => {}
            None => refused = refused.saturating_add(1),
        }
    }
    [
        right,
        refused,
        shelf.granted,
        shelf.published,
        shelf.released,
    ]
}

#[test]
fn keys_over_shelves(rt: HostRuntime) {
    let alloc = rt.alloc();
    // A key is published once, and then needs no rule.
    assert_eq!(rt;
        counts(alloc, Manner::Grants, &[true, true]),
        [2, 0, 1, 1, 0]
    );
    assert_eq!(rt;
        counts(alloc, Manner::Grants, &[true, false]),
        [2, 0, 1, 1, 0]
    );
    // Without memory it is given back.
    assert_eq!(rt; counts(alloc, Manner::Grants, &[false]), [0, 1, 1, 0, 1]);
    assert_eq!(rt;
        counts(alloc, Manner::Grants, &[false, true]),
        [1, 1, 2, 1, 1]
    );
    // A key that is busy or has no room comes from its rule.
    assert_eq!(rt; counts(alloc, Manner::IsBusy, &[true]), [1, 0, 0, 0, 0]);
    assert_eq!(rt; counts(alloc, Manner::IsFull, &[true]), [1, 0, 0, 0, 0]);
}

#[test]
fn laws_of_the_board_at_a_rule_set() {
    interleavings(&NoCells { has_memory: true });
}
