// The rule of the cycles of a space in a degree.
ghost use Rattle.std.specs.Prelude.{◌≡◌, ℕ, IfOk};
ghost use Rattle.fp_field.specs.Field.{number};
ghost use Rattle.term_lang.specs.SpaceOf.{space_of};
ghost use Rattle.oracle_iface.specs.declared.keys.Op.TheVariants.{Cycles};
ghost use Rattle.oracle_iface.specs.declared.keys.Place.TheVariants.{Degree as DegreePlace};
ghost use Rattle.oracle_iface.specs.Forcing.{MayForceNeeds, AsksNeeds};
ghost use Rattle.oracle_iface.specs.Keys.{IsValidKey};
ghost use Rattle.oracle_iface.specs.Stands.{IsRead};
ghost use Rattle.homology_rules.specs.Shown.{HasShownValues};

use crate::cycles::cycles_by_asking;
use oracle_iface::{Forcer, Key, Outcome, Place};
use std::alloc::{AllocError, Global};

/// The degree at a place in a degree.
fn degree_at(place: &Place) -> u32
    requires { (n : ℕ) × (place.now ≡ DegreePlace n) }
    ensures { place.now ≡ DegreePlace result }
{
    match place {
        Place::Degree(n) => *n,
        _ => unreachable!(),
    }
}

/// The listed cycles of the degree of a key, in its space and over its field, or the first refusal among what
/// they need (Rubio and Sergeraert, Constructive Homological Algebra and Applications, on homology with
/// generators). It asks the forcer for needed keys alone: for the first of them in their order, and for all
/// where it answers cycles. The limits on the key's own value are not applied here. The values of the space
/// must have only cells that the code has, as those of tables and of spheres do.
pub fn rule<F: Forcer>(alloc: Global, key: &Key, forcer: &mut F) -> Result<Outcome, AllocError>
    requires valid { IsValidKey key.now }
    requires op { key.now.op ≡ Cycles }
    requires shown { HasShownValues (number key.now.prime) (space_of key.now.term) }
    requires forcer { MayForceNeeds F.may_force F.forces key.now forcer.old }
    ensures outcome { IfOk result (λ o. IsRead key.now o) }
    ensures asked { AsksNeeds F.forces key.now forcer.old forcer.new result }
{
    cycles_by_asking(alloc, key, degree_at(&key.place), forcer)
}
