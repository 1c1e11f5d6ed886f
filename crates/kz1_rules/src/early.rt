// Limits that a key meets before its value is made.
ghost use Rattle.std.specs.Prelude.{◌≡◌, ◌≤◌, IfSome, IsNone};
ghost use Rattle.spaces.specs.Spaces.{kz1};
ghost use Rattle.term_lang.specs.SpaceOf.{space_of};
ghost use Rattle.oracle_iface.specs.Keys.{IsValidKey};
ghost use Rattle.oracle_iface.specs.Stands.{IsOutcome};
ghost use Rattle.oracle_iface.specs.declared.keys.Op.TheVariants.{Cycles};
ghost use Rattle.oracle_iface.specs.declared.bodies.Outcome.TheVariants.{Over as IsOver};
ghost use Rattle.kz1_rules.specs.Lists.{integer_at};

use crate::homotopy::term_count;
use crate::places::list_at;
use oracle_iface::{INTEGER, Key, Kind, Op, Place, TERMS, integer_of, small_integer_of};

/// The greatest magnitude of an integer at a place.
fn place_integer(place: &Place) -> u64
    ensures { result ≡ integer_at place.now }
{
    match place {
        Place::Degree(_) => 0,
        Place::Small(y) => small_integer_of(y),
        Place::Big(x) => integer_of(x),
    }
}

/// The limit that a key is past before its value is made, with the size: that on the integers of its
/// own list, or that on terms, where it asks for H of a list that begins with a large integer.
pub(crate) fn early_limit(key: &Key) -> Option<(Kind, u64)>
    requires valid { IsValidKey key.now }
    requires space { space_of key.now.term ≡ kz1 }
    requires op { key.now.op ≡ Cycles → ⊥ }
    ensures refused { IfSome result (λ r. IsOutcome key.now (IsOver (record { key = key.now; kind = r.0; size = r.1 }))) }
    ensures passed { IsNone result → integer_at key.now.place ≤ 100000 }
{
    let integer = place_integer(&key.place);
    if integer > INTEGER {
        return Some((Kind::Integer, integer));
    }
    match key.op {
        Op::H => {
            let terms = term_count(list_at(&key.place));
            if terms > TERMS {
                Some((Kind::Terms, terms))
            } else {
                None
            }
        }
        _ => None,
    }
}
