// F and H, on chains of pairs.
ghost use Rattle.std.specs.Prelude.{◌≡◌, ◌<◌, IfOk};
ghost use Rattle.fp_field.specs.Chains.{EachKey};
ghost use Rattle.chain_core.specs.Asks.{MayAsk, Asked};
ghost use Rattle.twice_perturbed.specs.Twice.{MayAskF, MayAskH};
ghost use Rattle.fibred_maps.specs.Fibred.{NamesPair, f_value, f_keys, h_value, h_keys};
ghost use Rattle.fibred_maps.specs.Joined.{IsJoined};

use crate::space::FibredSpace;
use chain_core::{Chain, Source};
use reduct_laws::Reduction;
use std::alloc::Global;
use twice_perturbed::{FirstMaps, Twice, twice_f, twice_h};

/// F of a fibred space on a chain of pairs of degree n, below the degree up to which the code names its generators: F of base and fibre along
/// S2 of Alexander-Whitney of S1. It is in normal form.
///
/// A stop is want of memory or the first refusal that a map of base or fibre met.
pub fn fibred_f<
    S: Source,
    D: FirstMaps,
    T: Reduction<S, Big = D::Middle>,
    X: FibredSpace<S, D::Big, D::Middle, T::Small>,
>(
    alloc: Global,
    first: &D,
    parts: &T,
    space: &X,
    source: &mut S,
    n: u32,
    c: &Chain<D::Big>,
) -> Result<Chain<T::Small>, T::Stop>
where
    D::Middle: Drop,
    T::Small: Drop,
    requires joined { IsJoined D.Big.cmp D.Middle.cmp T.Small.cmp (X.of space.now) (D.maps first.now) (T.maps parts.now) (T.lists parts.now) }
    requires whole { (D.maps first.now).whole }
    requires primes { T.prime_of parts.now ≡ (D.maps first.now).prime }
    requires prime { c.now.prime ≡ (D.maps first.now).prime }
    requires degree { n < (X.of space.now).top }
    requires pairs { EachKey (NamesPair (X.of space.now) (D.maps first.now).prime n) c.now.terms }
    requires keys { MayAskF D.Big.cmp D.Middle.cmp (D.maps first.now) (T.maps parts.now) n (T.lists parts.now) S.refusal (T.may_ask_big parts.now) c.now.terms }
    requires source { MayAsk S.can_ask S.runs source.old (f_keys (X.of space.now) (D.maps first.now).prime n c.now.terms) }
    ensures prime { IfOk result (λ r. r.prime ≡ (D.maps first.now).prime) }
    ensures value { IfOk result (λ r. r.terms ≡ f_value (X.of space.now) (D.maps first.now).prime n c.now.terms) }
    ensures source { Asked S.runs S.refusal T.Stop.refused source.old (f_keys (X.of space.now) (D.maps first.now).prime n c.now.terms) source.new result }
{
    let _ = space;
    let twice = Twice {
        first,
        second: parts,
    };
    twice_f(alloc, &twice, source, n, c)
}

/// H of a fibred space on a chain of pairs of degree n, below the degree up to which the code names its generators: P1 of the flow, and P1 of
/// Eilenberg-Mac Lane of P2 of the homotopy of tensors of Alexander-Whitney of S1. It is in normal form.
///
/// A stop is want of memory or the first refusal that a map of base or fibre met.
pub fn fibred_h<
    S: Source,
    D: FirstMaps,
    T: Reduction<S, Big = D::Middle>,
    X: FibredSpace<S, D::Big, D::Middle, T::Small>,
>(
    alloc: Global,
    first: &D,
    parts: &T,
    space: &X,
    source: &mut S,
    n: u32,
    c: &Chain<D::Big>,
) -> Result<Chain<D::Big>, T::Stop>
where
    D::Big: Drop,
    D::Middle: Drop,
    requires joined { IsJoined D.Big.cmp D.Middle.cmp T.Small.cmp (X.of space.now) (D.maps first.now) (T.maps parts.now) (T.lists parts.now) }
    requires whole { (D.maps first.now).whole }
    requires primes { T.prime_of parts.now ≡ (D.maps first.now).prime }
    requires prime { c.now.prime ≡ (D.maps first.now).prime }
    requires degree { n < (X.of space.now).top }
    requires pairs { EachKey (NamesPair (X.of space.now) (D.maps first.now).prime n) c.now.terms }
    requires keys { MayAskH D.Big.cmp D.Middle.cmp (D.maps first.now) (T.maps parts.now) n (T.lists parts.now) S.refusal (T.may_ask_big parts.now) c.now.terms }
    requires source { MayAsk S.can_ask S.runs source.old (h_keys (X.of space.now) (D.maps first.now).prime n c.now.terms) }
    ensures prime { IfOk result (λ r. r.prime ≡ (D.maps first.now).prime) }
    ensures value { IfOk result (λ r. r.terms ≡ h_value (X.of space.now) (D.maps first.now).prime n c.now.terms) }
    ensures source { Asked S.runs S.refusal T.Stop.refused source.old (h_keys (X.of space.now) (D.maps first.now).prime n c.now.terms) source.new result }
{
    let _ = space;
    let twice = Twice {
        first,
        second: parts,
    };
    twice_h(alloc, &twice, source, n, c)
}
