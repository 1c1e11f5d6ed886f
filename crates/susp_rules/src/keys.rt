// The key of the part that a key needs.
ghost use Rattle.std.specs.Prelude.{◌≡◌, IfOk};
ghost use Rattle.spaces.specs.Spaces.{Space, suspension};
ghost use Rattle.term_lang.specs.SpaceOf.{space_of};
ghost use Rattle.term_lang.specs.declared.terms.Term.{Term as AnyTerm};
ghost use Rattle.term_lang.specs.declared.terms.Term.TheVariants.{Suspension as SuspensionTerm};
ghost use Rattle.oracle_iface.specs.Keys.{IsValidKey, needs_of};
ghost use Rattle.oracle_iface.specs.declared.keys.Op.TheVariants.{Cycles};
ghost use Rattle.susp_rules.specs.Suspendable.{IsOnlyNeed};

use crate::places::part_place;
use oracle_iface::Key;
use std::alloc::{AllocError, Global};
use term_lang::{Term, share};

/// What is suspended.
fn part_of(term: &Term) -> &Term
    requires { (t : AnyTerm) × (term.now ≡ SuspensionTerm t) }
    ensures { term.now ≡ SuspensionTerm result.now }
{
    match term {
        Term::Suspension(part) => part.get(),
        _ => unreachable!(),
    }
}

/// The one key that a key about a suspension needs, but for cycles, or None where it needs none.
pub(crate) fn part_key(alloc: Global, key: &Key) -> Result<Option<Key>, AllocError>
    requires valid { IsValidKey key.now }
    requires space { (a : Space) × (space_of key.now.term ≡ suspension a) }
    requires op { key.now.op ≡ Cycles → ⊥ }
    ensures { IfOk result (λ o. IsOnlyNeed key.now.prime (needs_of key.now) o) }
{
    match part_place(alloc, &key.place)? {
        None => Ok(None),
        Some(place) => Ok(Some(Key {
            op: key.op,
            prime: key.prime,
            place,
            term: share(alloc, part_of(key.term.get()))?,
        })),
    }
}
