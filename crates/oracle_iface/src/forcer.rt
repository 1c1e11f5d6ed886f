// What gives the outcomes of keys, and the rules that ask it.
ghost use Rattle.std.specs.Prelude.{◌≡◌, Result, IfOk, Contains};
ghost use Rattle.fp_field.specs.Field.{number};
ghost use Rattle.std.specs.declared.alloc.AllocError.{AllocError};
ghost use Rattle.oracle_iface.specs.declared.keys.Key.{Key};
ghost use Rattle.oracle_iface.specs.declared.cell_values.CellValue.{CellValue};
ghost use Rattle.values.specs.Asks.{Ask};
ghost use Rattle.values.specs.Ranks.{IsLower};
ghost use Rattle.oracle_iface.specs.Keys.{question_of, key_of, needs_of, IsValidKey};
ghost use Rattle.oracle_iface.specs.KeyLaws.{IsReadBack};
ghost use Rattle.oracle_iface.specs.Stands.{IsOutcome};
ghost use Rattle.oracle_iface.specs.Forcing.{MayForceNeeds, AsksNeeds};

use crate::bodies::Outcome;
use crate::cell_values::CellValue;
use crate::keys::Key;
use seqs::Arc;
use std::alloc::{AllocError, Global};

/// What gives the cell of each key that it may be asked for. It changes with each call.
pub trait Forcer {
    /// Which keys it may be asked for.
    ghost may_force: { Self → Key → Type 0 };

    /// A state, the key that was asked for, the answer and the state after it.
    ghost forces: { Self → Key → Result CellValue AllocError → Self → Type 0 };

    /// The cell of a key that it may be asked for.
    fn force(&mut self, key: Key) -> Result<Arc<CellValue>, AllocError>
        requires { may_force self.old key }
        ensures key { IfOk result (λ v. v.key ≡ key) }
        ensures call { forces self.old key result self.new };
}

/// A forcer that calls a closure.
#[derive(Drop)]
pub struct ByCall<F> {
    pub call: F,
}

impl<F: FnMut(Key) -> Result<Arc<CellValue>, AllocError>> Forcer for ByCall<F> {
    ghost may_force = { λ s k. F.pre s.call k × ((r : _) (f : F) → F.step s.call k r f → IfOk r (λ v. v.key ≡ k)) };

    ghost forces = { λ s k r t. F.step s.call k r t.call };

    fn force(&mut self, key: Key) -> Result<Arc<CellValue>, AllocError> {
        (self.call)(key)
    }
}

/// Rules: what a key comes to, from what the keys that it needs come to.
pub trait RuleSet {
    /// The keys that there is a rule for.
    ghost treats: { Self → Key → Type 0 };

    /// Such a key is valid.
    ghost valid: { (s : Self) (k : Key) → treats s k → IsValidKey k };

    /// What is needed for such a key has a rule too, and a lower rank.
    ghost lower: { (s : Self) (k : Key) (q : Ask) → treats s k → Contains (needs_of k) q → treats s (key_of k.prime q) × IsLower (number k.prime) q (question_of k) };

    /// The key of what is needed is read as that question.
    ghost back: { (s : Self) (k : Key) (q : Ask) → treats s k → Contains (needs_of k) q → IsReadBack k.prime q };

    /// The outcome of a key, by asking the forcer for needed keys: for the first of the needs in
    /// their order, repeats left out, and for all of them where the outcome is a value.
    fn rule<F: Forcer>(
        &self,
        alloc: Global,
        key: &Key,
        forcer: &mut F,
    ) -> Result<Outcome, AllocError>
        requires key { treats self.now key.now }
        requires forcer { MayForceNeeds F.may_force F.forces key.now forcer.old }
        ensures outcome { IfOk result (λ o. IsOutcome key.now o) }
        ensures asked { AsksNeeds F.forces key.now forcer.old forcer.new result };
}
