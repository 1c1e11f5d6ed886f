// G and the small differential, on small cells.
ghost use Rattle.std.specs.Prelude.{◌≡◌, ◌≤◌, IfOk};
ghost use Rattle.chain_core.specs.Asks.{MayAsk, Asked};
ghost use Rattle.twice_perturbed.specs.Twice.{MayAskG};
ghost use Rattle.fibred_maps.specs.Fibred.{NamesSmall, g_value, g_keys, d_value, d_keys};
ghost use Rattle.fibred_maps.specs.Joined.{IsJoined};

use crate::space::FibredSpace;
use chain_core::{Chain, Source};
use reduct_laws::Reduction;
use std::alloc::Global;
use twice_perturbed::{FirstMaps, Twice, twice_d, twice_g};

/// G of a fibred space on a small cell of degree n, at most the degree up to which the code names its generators: P1 of Eilenberg-Mac Lane
/// of P2 of G of base and fibre. It is in normal form.
///
/// A stop is want of memory or the first refusal that a map of base or fibre met.
pub fn fibred_g<
    S: Source,
    D: FirstMaps,
    T: Reduction<S, Big = D::Middle>,
    X: FibredSpace<S, D::Big, D::Middle, T::Small>,
>(
    alloc: Global,
    first: &D,
    parts: &T,
    space: &X,
    source: &mut S,
    n: u32,
    y: &T::Small,
) -> Result<Chain<D::Big>, T::Stop>
where
    D::Middle: Drop,
    requires joined { IsJoined D.Big.cmp D.Middle.cmp T.Small.cmp (X.of space.now) (D.maps first.now) (T.maps parts.now) (T.lists parts.now) }
    requires whole { (D.maps first.now).whole }
    requires primes { T.prime_of parts.now ≡ (D.maps first.now).prime }
    requires degree { n ≤ (X.of space.now).top }
    requires cell { NamesSmall (X.of space.now) (D.maps first.now).prime n y.now }
    requires key { T.may_ask_small parts.now y.now }
    requires keys { MayAskG D.Big.cmp D.Middle.cmp (D.maps first.now) (T.maps parts.now) n (T.lists parts.now) S.refusal (T.may_ask_big parts.now) y.now }
    requires source { MayAsk S.can_ask S.runs source.old (g_keys (X.of space.now) (D.maps first.now).prime n y.now) }
    ensures prime { IfOk result (λ r. r.prime ≡ (D.maps first.now).prime) }
    ensures value { IfOk result (λ r. r.terms ≡ g_value (X.of space.now) (D.maps first.now).prime n y.now) }
    ensures source { Asked S.runs S.refusal T.Stop.refused source.old (g_keys (X.of space.now) (D.maps first.now).prime n y.now) source.new result }
{
    let _ = space;
    let twice = Twice {
        first,
        second: parts,
    };
    twice_g(alloc, &twice, source, n, y)
}

/// The small differential of a fibred space on a small cell of degree n, at most the degree up to which the code names its generators: that of
/// the tensor product, and F of base and fibre of the transferred difference of P2 of G of both. It is in normal form.
///
/// A stop is want of memory or the first refusal that a map of base or fibre met.
pub fn fibred_d<
    S: Source,
    D: FirstMaps,
    T: Reduction<S, Big = D::Middle>,
    X: FibredSpace<S, D::Big, D::Middle, T::Small>,
>(
    alloc: Global,
    first: &D,
    parts: &T,
    space: &X,
    source: &mut S,
    n: u32,
    y: &T::Small,
) -> Result<Chain<T::Small>, T::Stop>
where
    D::Middle: Drop,
    T::Small: Drop,
    requires joined { IsJoined D.Big.cmp D.Middle.cmp T.Small.cmp (X.of space.now) (D.maps first.now) (T.maps parts.now) (T.lists parts.now) }
    requires primes { T.prime_of parts.now ≡ (D.maps first.now).prime }
    requires degree { n ≤ (X.of space.now).top }
    requires cell { NamesSmall (X.of space.now) (D.maps first.now).prime n y.now }
    requires key { T.may_ask_small parts.now y.now }
    requires keys { MayAskG D.Big.cmp D.Middle.cmp (D.maps first.now) (T.maps parts.now) n (T.lists parts.now) S.refusal (T.may_ask_big parts.now) y.now }
    requires source { MayAsk S.can_ask S.runs source.old (d_keys (X.of space.now) (D.maps first.now).prime n y.now) }
    ensures prime { IfOk result (λ r. r.prime ≡ (D.maps first.now).prime) }
    ensures value { IfOk result (λ r. r.terms ≡ d_value (X.of space.now) (D.maps first.now).prime n y.now) }
    ensures source { Asked S.runs S.refusal T.Stop.refused source.old (d_keys (X.of space.now) (D.maps first.now).prime n y.now) source.new result }
{
    let _ = space;
    let twice = Twice {
        first,
        second: parts,
    };
    twice_d(alloc, &twice, source, n, y)
}
