// The outcome of a key, from what the right side of its rule comes to.
ghost use Rattle.std.specs.Prelude.{◌≡◌, IfOk, None};
ghost use Rattle.term_lang.specs.SpaceOf.{space_of};
ghost use Rattle.oracle_iface.specs.Keys.{IsValidKey};
ghost use Rattle.oracle_iface.specs.Limits.{kind_past};
ghost use Rattle.oracle_iface.specs.Stands.{IsOutcome};
ghost use Rattle.susp_rules.specs.Places.{size_at};
ghost use Rattle.twist_laws.specs.Assembled.{IsLoopless};
ghost use Rattle.twist_rules.specs.Concluded.{IsFoundFor, NeedsReadBack, IsUnrefused, keys_needed};

use oracle_iface::{Body, Key, Outcome, limited};
use part_asks::Found;
use std::alloc::{AllocError, Global};

/// The outcome of a key about a space without loop and path spaces, from what the right side of its rule
/// comes to: the value under the limits on values, or the refusal. What the key is at has to be within the
/// limits itself.
pub(crate) fn concluded(alloc: Global, key: &Key, found: Found<Body>) -> Result<Outcome, AllocError>
    requires valid { IsValidKey key.now }
    requires space { IsLoopless (space_of key.now.term) }
    requires back { NeedsReadBack key.now }
    requires place { kind_past (size_at key.now.place) ≡ None }
    requires found { IsFoundFor key.now found }
    ensures outcome { IfOk result (λ o. IsOutcome key.now o) }
    ensures unrefused { IfOk result (λ o. IsUnrefused (keys_needed key.now) o) }
{
    match found {
        Found::Value(body) => limited(alloc, key, body),
        Found::Over(over) => Ok(Outcome::Over(over)),
    }
}
