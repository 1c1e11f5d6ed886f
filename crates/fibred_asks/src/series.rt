// The sums of the second perturbation.
ghost use Rattle.std.specs.Prelude.{◌≡◌, suc, ◌<◌, ◌≤◌, ◌^◌, ◌++◌, All, IfOk, OnOk};
ghost use Rattle.fp_field.specs.Field.{number};
ghost use Rattle.fp_field.specs.Chains.{EachKey};
ghost use Rattle.chain_core.specs.Formal.{numbers};
ghost use Rattle.homology_rules.specs.Asking.{MayForceEach, AskedFirst, EachAnswered, up_to_refusal};
ghost use Rattle.part_asks.specs.Along.{AsksValid};
ghost use Rattle.part_asks.specs.Askers.{formal_tensors};
ghost use Rattle.part_asks.specs.Reading.{keys_of, IsFound};
ghost use Rattle.fibred_asks.specs.Parts.{AreParts, IfFound, EachIn};
ghost use Rattle.fibred_asks.specs.Reached.{limited_reach};
ghost use Rattle.fibred_asks.specs.Seconds.{series_room};
ghost use Rattle.fibred_asks.specs.Asked.{prime_of, base_of, fibre_of, values_of, HasTwist, IsTensorIn, p2_asked, s2_asked};
ghost use Rattle.fibred_asks.specs.Steps.{top_of, series_asked};

use crate::maps::Maps;
use crate::steps::{First, reach_after, step, top};
use cells::Cell;
use chain_core::Chain;
use ez_maps::Tensor;
use fp_field::Fp;
use oracle_iface::Forcer;
use part_asks::Found;
use reduct_laws::negated;
use std::alloc::{AllocError, Global};

/// Pushes the terms of a chain.
fn collect<K: Ord + Drop>(terms: &mut Vec<(K, Fp)>, chain: Chain<K>) -> Result<(), AllocError>
    requires elements { All (λ t. t.1.value < number chain.prime) terms.old.items }
    ensures elements { OnOk result (All (λ t. t.1.value < number chain.prime) terms.new.items) }
    ensures sum { OnOk result (numbers terms.new.items ≡ numbers terms.old.items ++ chain.terms) }
{
    let mut more = chain.into_terms();
    terms.append(&mut more)
}

/// The sum of the n + 1 terms of a series on a chain of tensors of degree n, each minus a step of the term before it.
fn series_by<F: Forcer>(
    alloc: Global,
    m: &Maps,
    first: First,
    n: u32,
    most: u64,
    c: &Chain<Tensor<Cell, Cell>>,
    forcer: &mut F,
) -> Result<Found<Chain<Tensor<Cell, Cell>>>, AllocError>
    requires parts { AreParts (prime_of m.now) (base_of m.now) (fibre_of m.now) }
    requires values { HasTwist m.now }
    requires degree { top_of first n ≤ 32 }
    requires reach { limited_reach ≤ most }
    requires room { series_room (values_of m.now) (top_of first n) most ≤ 2 ^ 40 }
    requires prime { c.now.prime ≡ (prime_of m.now) }
    requires tensors { EachKey (IsTensorIn m.now most n) c.now.terms }
    requires valid { AsksValid (prime_of m.now) (series_asked m.now first n c.now.terms) }
    requires asks { MayForceEach F.may_force F.forces forcer.old (keys_of (prime_of m.now) (series_asked m.now first n c.now.terms)) }
    ensures asked { AskedFirst F.forces (keys_of (prime_of m.now) (series_asked m.now first n c.now.terms)) forcer.old forcer.new }
    ensures through { IfOk result (λ o. EachAnswered F.forces forcer.old (up_to_refusal (keys_of (prime_of m.now) (series_asked m.now first n c.now.terms))) forcer.new) }
    ensures found { IfOk result (λ o. IsFound (formal_tensors (prime_of m.now) (base_of m.now) (fibre_of m.now)) (prime_of m.now) (series_asked m.now first n c.now.terms) o) }
    ensures tensors { IfOk result (λ o. IfFound (EachIn (IsTensorIn m.now (series_room (values_of m.now) (top_of first n) most) n)) o) }
{
    let mut sum = Vec::new(alloc);
    let mut term = c.clone()?;
    let mut reach = most;
    let mut left = n + 1;
    while left > 0 {
        let next = match step(alloc, m, first, n, reach, &term, forcer)? {
            Found::Over(over) => return Ok(Found::Over(over)),
            Found::Value(next) => next,
        };
        collect(&mut sum, term)?;
        term = negated(next);
        reach = reach_after(m, top(first, n), reach);
        left -= 1;
    }
    Ok(Found::Value(Chain::from_terms(alloc, m.base.prime, sum)?))
}

/// P2 on a chain of tensors of degree n: the sum of the terms (-1)^i (t r)^i of it, for i up to n, where r is the transferred difference and t
/// the homotopy of tensors, which asks.
pub fn second_p<F: Forcer>(
    alloc: Global,
    m: &Maps,
    n: u32,
    most: u64,
    c: &Chain<Tensor<Cell, Cell>>,
    forcer: &mut F,
) -> Result<Found<Chain<Tensor<Cell, Cell>>>, AllocError>
    requires parts { AreParts (prime_of m.now) (base_of m.now) (fibre_of m.now) }
    requires values { HasTwist m.now }
    requires degree { n ≤ 32 }
    requires reach { limited_reach ≤ most }
    requires room { series_room (values_of m.now) n most ≤ 2 ^ 40 }
    requires prime { c.now.prime ≡ (prime_of m.now) }
    requires tensors { EachKey (IsTensorIn m.now most n) c.now.terms }
    requires valid { AsksValid (prime_of m.now) (p2_asked m.now n c.now.terms) }
    requires asks { MayForceEach F.may_force F.forces forcer.old (keys_of (prime_of m.now) (p2_asked m.now n c.now.terms)) }
    ensures asked { AskedFirst F.forces (keys_of (prime_of m.now) (p2_asked m.now n c.now.terms)) forcer.old forcer.new }
    ensures through { IfOk result (λ o. EachAnswered F.forces forcer.old (up_to_refusal (keys_of (prime_of m.now) (p2_asked m.now n c.now.terms))) forcer.new) }
    ensures found { IfOk result (λ o. IsFound (formal_tensors (prime_of m.now) (base_of m.now) (fibre_of m.now)) (prime_of m.now) (p2_asked m.now n c.now.terms) o) }
    ensures tensors { IfOk result (λ o. IfFound (EachIn (IsTensorIn m.now (series_room (values_of m.now) n most) n)) o) }
{
    series_by(alloc, m, First::Difference, n, most, c, forcer)
}

/// S2 on a chain of tensors of degree n: the sum of the terms (-1)^i (r t)^i of it, for i up to n.
pub fn second_s<F: Forcer>(
    alloc: Global,
    m: &Maps,
    n: u32,
    most: u64,
    c: &Chain<Tensor<Cell, Cell>>,
    forcer: &mut F,
) -> Result<Found<Chain<Tensor<Cell, Cell>>>, AllocError>
    requires parts { AreParts (prime_of m.now) (base_of m.now) (fibre_of m.now) }
    requires values { HasTwist m.now }
    requires degree { n ≤ 31 }
    requires reach { limited_reach ≤ most }
    requires room { series_room (values_of m.now) (suc n) most ≤ 2 ^ 40 }
    requires prime { c.now.prime ≡ (prime_of m.now) }
    requires tensors { EachKey (IsTensorIn m.now most n) c.now.terms }
    requires valid { AsksValid (prime_of m.now) (s2_asked m.now n c.now.terms) }
    requires asks { MayForceEach F.may_force F.forces forcer.old (keys_of (prime_of m.now) (s2_asked m.now n c.now.terms)) }
    ensures asked { AskedFirst F.forces (keys_of (prime_of m.now) (s2_asked m.now n c.now.terms)) forcer.old forcer.new }
    ensures through { IfOk result (λ o. EachAnswered F.forces forcer.old (up_to_refusal (keys_of (prime_of m.now) (s2_asked m.now n c.now.terms))) forcer.new) }
    ensures found { IfOk result (λ o. IsFound (formal_tensors (prime_of m.now) (base_of m.now) (fibre_of m.now)) (prime_of m.now) (s2_asked m.now n c.now.terms) o) }
    ensures tensors { IfOk result (λ o. IfFound (EachIn (IsTensorIn m.now (series_room (values_of m.now) (suc n) most) n)) o) }
{
    series_by(alloc, m, First::Homotopy, n, most, c, forcer)
}
