// Base, fibre and cocycle's values of the space of a key.
ghost use Rattle.std.specs.Prelude.{◌≡◌};
ghost use Rattle.std.specs.Option.{option_copied};
ghost use Rattle.term_lang.specs.SpaceOf.{space_of};
ghost use Rattle.twist_rules.specs.PartMaps.{twist_of};

use cells::IntList;
use fp_field::Prime;
use oracle_iface::{Key, Op, Place};
use seqs::Arc;
use term_lang::Term;

/// A key of a part, which has its term and the prime.
pub(crate) fn part_key(p: Prime, term: Arc<Term>) -> Key
    ensures prime { result.prime ≡ p }
    ensures term { result.term ≡ term }
{
    Key {
        op: Op::Basis,
        prime: p,
        place: Place::Degree(0),
        term,
    }
}

/// The values of the cocycle of a bundle.
pub(crate) fn values_in(term: &Term) -> Option<&IntList>
    ensures { option_copied result ≡ twist_of (space_of term.now) }
{
    match term {
        Term::Bundle(_, values) => Some(values),
        Term::Table(_) => None,
        Term::Sphere(_) => None,
        Term::Product(_, _) => None,
        Term::Suspension(_) => None,
        Term::KZ1 => None,
        Term::Loop(_) => None,
        Term::Path(_) => None,
    }
}
