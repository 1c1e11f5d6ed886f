// The rule of suspensions.
ghost use Rattle.std.specs.Prelude.{◌≡◌, IfOk, None};
ghost use Rattle.fp_field.specs.Field.{number};
ghost use Rattle.spaces.specs.Spaces.{Space, suspension};
ghost use Rattle.term_lang.specs.SpaceOf.{space_of};
ghost use Rattle.oracle_iface.specs.Forcing.{MayForceNeeds, AsksNeeds};
ghost use Rattle.oracle_iface.specs.Keys.{IsValidKey};
ghost use Rattle.oracle_iface.specs.Limits.{kind_past};
ghost use Rattle.oracle_iface.specs.Stands.{IsOutcome};
ghost use Rattle.oracle_iface.specs.declared.keys.Op.TheVariants.{Cycles};
ghost use Rattle.susp_rules.specs.Places.{size_at};
ghost use Rattle.susp_rules.specs.Suspendable.{IsSuspendable, IsLimited, IsOutcomeBack};

use crate::bases::base_value;
use crate::keys::part_key;
use crate::places::place_past;
use crate::raised::raised;
use oracle_iface::{Forcer, Key, Outcome, Over, copy_key, copy_over, limited};
use std::alloc::{AllocError, Global};

/// What the rule gives without the limits on what the key itself is at.
fn limited_outcome<F: Forcer>(
    alloc: Global,
    key: &Key,
    forcer: &mut F,
) -> Result<Outcome, AllocError>
    requires valid { IsValidKey key.now }
    requires space { (a : Space) × (space_of key.now.term ≡ suspension a) × IsSuspendable (number key.now.prime) a }
    requires op { key.now.op ≡ Cycles → ⊥ }
    requires forcer { MayForceNeeds F.may_force F.forces key.now forcer.old }
    ensures outcome { IfOk result (λ o. IsLimited key.now o) }
    ensures asked { AsksNeeds F.forces key.now forcer.old forcer.new result }
{
    let asked = match part_key(alloc, key)? {
        None => return limited(
            alloc,
            key,
            base_value(alloc, key.prime, key.op, &key.place)?,
        ),
        Some(asked) => asked,
    };
    let cell = forcer.force(asked)?;
    match &cell.get().outcome {
        Outcome::Over(over) => Ok(Outcome::Over(copy_over(alloc, over)?)),
        Outcome::Value(body) => limited(alloc, key, raised(alloc, key.prime, key.op, body)?),
    }
}

/// The outcome of a key about a suspension, other than that of its cycles. It asks the forcer for the key
/// of the part one degree below, and for nothing where the key is at the base or in the degrees 0 and 1;
/// the value of the part goes under Up, with the sign -1 at the small differential and at H (Rubio and
/// Sergeraert, Constructive Homological Algebra and Applications, on suspensions). A refusal of the part's
/// key is the refusal of this one. The limits on what the key is at come before it, those on the value
/// after it. The cells of the code must be those of the part and of its suspension, the maps of the part
/// must have their degrees, as those of a reduction do, and the outcome must be what the rule gives back.
pub fn rule<F: Forcer>(alloc: Global, key: &Key, forcer: &mut F) -> Result<Outcome, AllocError>
    requires valid { IsValidKey key.now }
    requires space { (a : Space) × (space_of key.now.term ≡ suspension a) × IsSuspendable (number key.now.prime) a }
    requires op { key.now.op ≡ Cycles → ⊥ }
    requires back { IsOutcomeBack key.now }
    requires forcer { MayForceNeeds F.may_force F.forces key.now forcer.old }
    ensures outcome { IfOk result (λ o. IsOutcome key.now o) }
    ensures asked { AsksNeeds F.forces key.now forcer.old forcer.new result }
{
    match place_past(&key.place) {
        Some((kind, size)) => Ok(Outcome::Over(Over {
            key: copy_key(alloc, key)?,
            kind,
            size,
        })),
        None => limited_outcome(alloc, key, forcer),
    }
}
