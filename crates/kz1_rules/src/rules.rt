// The rule of K(Z,1).
ghost use Rattle.std.specs.Prelude.{◌≡◌, IfOk};
ghost use Rattle.spaces.specs.Spaces.{kz1};
ghost use Rattle.term_lang.specs.SpaceOf.{space_of};
ghost use Rattle.oracle_iface.specs.Keys.{IsValidKey};
ghost use Rattle.oracle_iface.specs.Stands.{IsOutcome};
ghost use Rattle.oracle_iface.specs.Forcing.{MayForceNeeds, AsksNeeds};
ghost use Rattle.oracle_iface.specs.declared.keys.Op.TheVariants.{Cycles};

use crate::direct::integers_value;
use crate::early::early_limit;
use oracle_iface::{Forcer, Key, Outcome, Over, copy_key, limited};
use std::alloc::{AllocError, Global};

/// The outcome of a key about K(Z,1).
fn outcome(alloc: Global, key: &Key) -> Result<Outcome, AllocError>
    requires valid { IsValidKey key.now }
    requires space { space_of key.now.term ≡ kz1 }
    requires op { key.now.op ≡ Cycles → ⊥ }
    ensures { IfOk result (λ o. IsOutcome key.now o) }
{
    match early_limit(key) {
        Some((kind, size)) => Ok(Outcome::Over(Over {
            key: copy_key(alloc, key)?,
            kind,
            size,
        })),
        None => {
            let body = integers_value(alloc, key)?;
            limited(alloc, key, body)
        }
    }
}

/// The outcome of a key about K(Z,1) other than that of cycles: its value, or the limit that its own
/// list or its value is past (Eilenberg and Mac Lane, On the groups H(Pi,n), I). No other key is needed,
/// so the forcer is not asked. Where the list of the key is past the limit on integers, or H has more
/// terms than the limit allows, no chain is made.
pub fn rule<F: Forcer>(alloc: Global, key: &Key, forcer: &mut F) -> Result<Outcome, AllocError>
    requires valid { IsValidKey key.now }
    requires space { space_of key.now.term ≡ kz1 }
    requires op { key.now.op ≡ Cycles → ⊥ }
    requires forcer { MayForceNeeds F.may_force F.forces key.now forcer.old }
    ensures outcome { IfOk result (λ o. IsOutcome key.now o) }
    ensures asked { AsksNeeds F.forces key.now forcer.old forcer.new result }
{
    let _ = forcer;
    outcome(alloc, key)
}
