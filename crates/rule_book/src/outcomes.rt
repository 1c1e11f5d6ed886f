// Outcomes of keys, from what their rules give.
ghost use Rattle.std.specs.Prelude.{◌≡◌, IfOk};
ghost use Rattle.oracle_iface.specs.Stands.{IsRead, IsOutcome};
ghost use Rattle.oracle_iface.specs.declared.keys.Op.TheVariants.{Cycles};
ghost use Rattle.susp_rules.specs.Treated.{IsTreated};
ghost use Rattle.rule_book.specs.Places.{IsWithin};
ghost use Rattle.rule_book.specs.Refused.{StaysRefused};
ghost use Rattle.rule_book.specs.RowSpaces.{IsRowKey};

use crate::direct::direct_value;
use oracle_iface::{Key, Outcome, limited};
use std::alloc::{AllocError, Global};

/// The outcome of a key, from what its rule gives without the limits on the value of the key: the same,
/// unless it is a value past a limit. What the key is at has to be within the limits itself, as each
/// degree is, and each cell of a table or a sphere.
pub fn within_limits(alloc: Global, key: &Key, found: Outcome) -> Result<Outcome, AllocError>
    requires key { IsTreated key.now }
    requires place { IsWithin key.now }
    requires found { IsRead key.now found }
    ensures outcome { IfOk result (λ o. IsOutcome key.now o) }
    ensures refused { IfOk result (λ o. StaysRefused found o) }
{
    match found {
        Outcome::Value(body) => limited(alloc, key, body),
        Outcome::Over(over) => Ok(Outcome::Over(over)),
    }
}

/// The outcome of a key about a table or a sphere, other than that of cycles. No other key is needed.
/// Keys about other spaces are not for it.
pub fn direct_outcome(alloc: Global, key: &Key) -> Result<Outcome, AllocError>
    requires key { IsRowKey key.now }
    requires op { key.now.op ≡ Cycles → ⊥ }
    ensures { IfOk result (λ o. IsOutcome key.now o) }
{
    let body = direct_value(alloc, key)?;
    within_limits(alloc, key, Outcome::Value(body))
}
