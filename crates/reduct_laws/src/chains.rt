// What the combinators do to chains.
ghost use Rattle.std.specs.Prelude.{◌≡◌, ◌-◌, ◌++◌, IfOk};
ghost use Rattle.std.specs.declared.cmp.Ordering.TheVariants.{Equal};
ghost use Rattle.fp_field.specs.Field.{number};
ghost use Rattle.fp_field.specs.Chains.{EachKey, extend, scale};
ghost use Rattle.fp_field.specs.Normal.{normal};
ghost use Rattle.chain_core.specs.Asks.{MayAsk, Asked, asks_along};
ghost use Rattle.reduct_laws.specs.declared.sides.Side.{Side};
ghost use Rattle.reduct_laws.specs.declared.sides.Side.TheVariants.{Left, Right};
ghost use Rattle.reduct_laws.specs.Sides.{relabel};

use crate::sides::Side;
use chain_core::{Chain, LinearMap, MapFault, Source};
use fp_field::{Fp, value};
use std::alloc::{AllocError, Global};

/// A map on a whole chain, key by key in order, where want of memory is a stop too.
pub fn apply<K: Ord, S: Source, J: Ord + Drop, M: LinearMap<S, K, J>>(
    alloc: Global,
    source: &mut S,
    map: &M,
    chain: &Chain<K>,
) -> Result<Chain<J>, M::Stop>
    requires prime { M.prime map.now ≡ chain.now.prime }
    requires keys { EachKey (M.may_be_asked map.now) chain.now.terms }
    requires source { MayAsk S.can_ask S.runs source.old (asks_along (M.asks map.now) chain.now.terms) }
    ensures prime { IfOk result (λ c. c.prime ≡ chain.now.prime) }
    ensures sum { IfOk result (λ c. c.terms ≡ normal J.cmp (number chain.now.prime) (extend (M.image_of map.now) chain.now.terms)) }
    ensures source { Asked S.runs S.refusal M.Stop.refused source.old (asks_along (M.asks map.now) chain.now.terms) source.new result }
{
    match chain.map_linear(alloc, source, map) {
        Ok(image) => Ok(image),
        Err(MapFault::Stop(stop)) => Err(stop),
        Err(MapFault::Memory) => Err(M::Stop::from(AllocError)),
    }
}

/// The sum of two chains over one field.
pub fn sum_of<K: Ord + Drop>(
    alloc: Global,
    a: Chain<K>,
    b: Chain<K>,
) -> Result<Chain<K>, AllocError>
    requires prime { b.prime ≡ a.prime }
    requires one_key { (x y : K) → K.cmp x y ≡ Equal → x ≡ y }
    ensures prime { IfOk result (λ c. c.prime ≡ a.prime) }
    ensures sum { IfOk result (λ c. c.terms ≡ normal K.cmp (number a.prime) (a.terms ++ b.terms)) }
{
    let p = a.prime();
    let mut terms = a.into_terms();
    let mut more = b.into_terms();
    terms.append(&mut more)?;
    Chain::from_terms(alloc, p, terms)
}

/// Minus a chain.
pub fn negated<K: Ord + Drop>(chain: Chain<K>) -> Chain<K>
    ensures prime { result.prime ≡ chain.prime }
    ensures terms { result.terms ≡ normal K.cmp (number chain.prime) (scale (number chain.prime - 1) chain.terms) }
{
    let p = chain.prime();
    let mut minus = chain;
    minus.scale(Fp {
        value: value(p) - 1,
    });
    minus
}

/// The same chain with its keys on the left.
pub fn lefts<X: Ord + Drop, Y: Ord + Drop>(
    alloc: Global,
    chain: Chain<X>,
) -> Result<Chain<Side<X, Y>>, AllocError>
    requires one_key { (s t : Side X Y) → ⟦<Side<X, Y> as Ord>⟧.cmp s t ≡ Equal → s ≡ t }
    ensures prime { IfOk result (λ c. c.prime ≡ chain.prime) }
    ensures terms { IfOk result (λ c. c.terms ≡ normal ⟦<Side<X, Y> as Ord>⟧.cmp (number chain.prime) (relabel Left chain.terms)) }
{
    let p = chain.prime();
    let mut left = chain.into_terms();
    let mut terms = Vec::with_capacity(alloc, left.len())?;
    while let Some((key, number)) = left.pop() {
        terms.push((Side::Left(key), number))?;
    }
    Chain::from_terms(alloc, p, terms)
}

/// The same chain with its keys on the right.
pub fn rights<X: Ord + Drop, Y: Ord + Drop>(
    alloc: Global,
    chain: Chain<Y>,
) -> Result<Chain<Side<X, Y>>, AllocError>
    requires one_key { (s t : Side X Y) → ⟦<Side<X, Y> as Ord>⟧.cmp s t ≡ Equal → s ≡ t }
    ensures prime { IfOk result (λ c. c.prime ≡ chain.prime) }
    ensures terms { IfOk result (λ c. c.terms ≡ normal ⟦<Side<X, Y> as Ord>⟧.cmp (number chain.prime) (relabel Right chain.terms)) }
{
    let p = chain.prime();
    let mut left = chain.into_terms();
    let mut terms = Vec::with_capacity(alloc, left.len())?;
    while let Some((key, number)) = left.pop() {
        terms.push((Side::Right(key), number))?;
    }
    Chain::from_terms(alloc, p, terms)
}
