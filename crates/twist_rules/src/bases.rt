// The small cells of a degree of a product or a circle bundle.
ghost use Rattle.std.specs.Prelude.{◌≡◌, ℕ, zero, suc, ◌+◌, ◌<◌, ◌^◌, IfOk};
ghost use Rattle.term_lang.specs.SpaceOf.{space_of};
ghost use Rattle.values.specs.Rules.{numbers, pairs_of_degree};
ghost use Rattle.homology_rules.specs.Asking.{MayForceEach, AskedFirst, EachAnswered, up_to_refusal};
ghost use Rattle.oracle_iface.specs.declared.bodies.Body.TheVariants.{Cells as CellsBody};
ghost use Rattle.twist_rules.specs.PairBases.{basis_key, basis_keys, quote_pairs};
ghost use Rattle.part_asks.specs.Reading.{keys_of, IsFound};

use crate::part_terms::PartTerms;
use crate::small_pairs::pairs_in;
use fp_field::Prime;
use homology_rules::{Answers, ask_all};
use oracle_iface::{Body, Forcer, Key, Op, Place};
use part_asks::Found;
use seqs::Arc;
use std::alloc::{AllocError, Global};
use term_lang::Term;

/// The key of the small cells of a degree.
fn basis_key(p: Prime, term: &Arc<Term>, n: u32) -> Result<Key, AllocError>
    ensures { IfOk result (λ k. k ≡ basis_key p term.now n) }
{
    Ok(Key {
        op: Op::Basis,
        prime: p,
        place: Place::Degree(n),
        term: term.clone()?,
    })
}

/// The keys of base and fibre in the degrees i and n - i, for i from 0 to n.
fn basis_keys(alloc: Global, p: Prime, parts: &PartTerms, n: u32) -> Result<Vec<Key>, AllocError>
    requires { n + 1 < 2 ^ 32 }
    ensures { IfOk result (λ ks. ks.items ≡ basis_keys p parts.now.base parts.now.fibre n (numbers 0 (suc n))) }
{
    let mut keys = Vec::new(alloc);
    for i in 0..n + 1 {
        keys.push(basis_key(p, &parts.base, i)?)?;
        keys.push(basis_key(p, &parts.fibre, n - i)?)?;
    }
    Ok(keys)
}

/// The small cells of degree n of a product or a circle bundle: for i from 0 to n it asks for the small
/// cells of degree i of the base and then for those of degree n - i of the fibre, up to the first refusal,
/// and each of the first makes a pair with each of the second, the first slowest.
pub(crate) fn pairs_by_asking<F: Forcer>(
    alloc: Global,
    p: Prime,
    parts: &PartTerms,
    n: u32,
    forcer: &mut F,
) -> Result<Found<Body>, AllocError>
    requires degree { n + 1 < 2 ^ 32 }
    requires forcer { let R = pairs_of_degree (space_of parts.now.base) (space_of parts.now.fibre) n (numbers 0 (suc n)) in MayForceEach F.may_force F.forces forcer.old (keys_of p R) }
    ensures asked { let R = pairs_of_degree (space_of parts.now.base) (space_of parts.now.fibre) n (numbers 0 (suc n)) in AskedFirst F.forces (keys_of p R) forcer.old forcer.new }
    ensures through { let R = pairs_of_degree (space_of parts.now.base) (space_of parts.now.fibre) n (numbers 0 (suc n)) in IfOk result (λ o. EachAnswered F.forces forcer.old (up_to_refusal (keys_of p R)) forcer.new) }
    ensures found { let a = space_of parts.now.base in let b = space_of parts.now.fibre in IfOk result (λ o. IsFound (λ ys. CellsBody (quote_pairs a b ys)) p (pairs_of_degree a b n (numbers 0 (suc n))) o) }
{
    let keys = basis_keys(alloc, p, parts, n)?;
    match ask_all(alloc, &keys, forcer)? {
        Answers::Over(over) => Ok(Found::Over(over)),
        Answers::Values(cells) => Ok(Found::Value(Body::Cells(pairs_in(alloc, &cells)?))),
    }
}
