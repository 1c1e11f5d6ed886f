// The four maps.
ghost use Rattle.std.specs.Prelude.{◌≡◌, IfOk};
ghost use Rattle.chain_core.specs.Asks.{MayAsk, Asked};
ghost use Rattle.twice_perturbed.specs.Twice.{twice_f, twice_g, twice_h, twice_d, twice_f_asks, twice_g_asks, twice_h_asks, twice_d_asks, MayAskF, MayAskG, MayAskH};

use crate::difference::Difference;
use crate::first::FirstMaps;
use chain_core::{Chain, Source};
use perturb::series::series_along;
use perturb::{OnKeys, d_along, g_along};
use reduct_laws::{MapF, MapH, Reduction, apply, sum_of};
use std::alloc::Global;

/// A first reduction with its twist, which asks nothing, and a second reduction of its small complex.
#[derive(Drop)]
pub struct Twice<'a, D, T> {
    pub first: &'a D,
    pub second: &'a T,
}

/// F of a chain of big generators of degree n: f S2 of the second reduction after f S1 of the first. It is in normal form.
///
/// A stop is want of memory or the refusal that a map of the second reduction met.
pub fn twice_f<S: Source, D: FirstMaps, T: Reduction<S, Big = D::Middle>>(
    alloc: Global,
    m: &Twice<D, T>,
    source: &mut S,
    n: u32,
    c: &Chain<D::Big>,
) -> Result<Chain<T::Small>, T::Stop>
where
    D::Middle: Drop,
    T::Small: Drop,
    requires whole { (D.maps m.now.first.now).whole }
    requires primes { T.prime_of m.now.second.now ≡ (D.maps m.now.first.now).prime }
    requires prime { c.now.prime ≡ (D.maps m.now.first.now).prime }
    requires keys { MayAskF D.Big.cmp D.Middle.cmp (D.maps m.now.first.now) (T.maps m.now.second.now) n (T.lists m.now.second.now) S.refusal (T.may_ask_big m.now.second.now) c.now.terms }
    requires source { MayAsk S.can_ask S.runs source.old (twice_f_asks D.Big.cmp D.Middle.cmp (D.maps m.now.first.now) (T.maps m.now.second.now) n (T.lists m.now.second.now) c.now.terms) }
    ensures prime { IfOk result (λ r. r.prime ≡ (D.maps m.now.first.now).prime) }
    ensures value { IfOk result (λ r. r.terms ≡ twice_f D.Big.cmp D.Middle.cmp (D.maps m.now.first.now) (T.maps m.now.second.now) n T.Small.cmp c.now.terms) }
    ensures source { Asked S.runs S.refusal T.Stop.refused source.old (twice_f_asks D.Big.cmp D.Middle.cmp (D.maps m.now.first.now) (T.maps m.now.second.now) n (T.lists m.now.second.now) c.now.terms) source.new result }
{
    let rank = n as u64 + 1;
    let start = m.first.lowered(alloc, rank, c)?;
    let added = Difference {
        of: &*m,
        rank: n as u64 + 2,
    };
    let back = MapH { of: m.second };
    let sum = series_along(alloc, source, &OnKeys { of: &back }, &added, rank, start)?;
    apply(alloc, source, &MapF { of: m.second }, &sum)
}

/// G of a small generator of degree n: P1 g of the first reduction after P2 g of the second. It is in normal form.
///
/// A stop is want of memory or the refusal that a map of the second reduction met.
pub fn twice_g<S: Source, D: FirstMaps, T: Reduction<S, Big = D::Middle>>(
    alloc: Global,
    m: &Twice<D, T>,
    source: &mut S,
    n: u32,
    y: &T::Small,
) -> Result<Chain<D::Big>, T::Stop>
where
    D::Middle: Drop,
    requires whole { (D.maps m.now.first.now).whole }
    requires primes { T.prime_of m.now.second.now ≡ (D.maps m.now.first.now).prime }
    requires key { T.may_ask_small m.now.second.now y.now }
    requires keys { MayAskG D.Big.cmp D.Middle.cmp (D.maps m.now.first.now) (T.maps m.now.second.now) n (T.lists m.now.second.now) S.refusal (T.may_ask_big m.now.second.now) y.now }
    requires source { MayAsk S.can_ask S.runs source.old (twice_g_asks D.Big.cmp D.Middle.cmp (D.maps m.now.first.now) (T.maps m.now.second.now) n (T.lists m.now.second.now) y.now) }
    ensures prime { IfOk result (λ r. r.prime ≡ (D.maps m.now.first.now).prime) }
    ensures value { IfOk result (λ r. r.terms ≡ twice_g D.Big.cmp D.Middle.cmp (D.maps m.now.first.now) (T.maps m.now.second.now) n y.now) }
    ensures source { Asked S.runs S.refusal T.Stop.refused source.old (twice_g_asks D.Big.cmp D.Middle.cmp (D.maps m.now.first.now) (T.maps m.now.second.now) n (T.lists m.now.second.now) y.now) source.new result }
{
    let rank = n as u64 + 1;
    let added = Difference { of: &*m, rank };
    let middle = g_along(alloc, m.second, &added, source, rank, y)?;
    Ok(m.first.lifted(alloc, rank, &middle)?)
}

/// H of a chain of big generators of degree n: P1 h of the first reduction, and P1 g of it after P2 h of the second after f S1. It is in
/// normal form.
///
/// A stop is want of memory or the refusal that a map of the second reduction met.
pub fn twice_h<S: Source, D: FirstMaps, T: Reduction<S, Big = D::Middle>>(
    alloc: Global,
    m: &Twice<D, T>,
    source: &mut S,
    n: u32,
    c: &Chain<D::Big>,
) -> Result<Chain<D::Big>, T::Stop>
where
    D::Big: Drop,
    D::Middle: Drop,
    requires whole { (D.maps m.now.first.now).whole }
    requires primes { T.prime_of m.now.second.now ≡ (D.maps m.now.first.now).prime }
    requires prime { c.now.prime ≡ (D.maps m.now.first.now).prime }
    requires keys { MayAskH D.Big.cmp D.Middle.cmp (D.maps m.now.first.now) (T.maps m.now.second.now) n (T.lists m.now.second.now) S.refusal (T.may_ask_big m.now.second.now) c.now.terms }
    requires source { MayAsk S.can_ask S.runs source.old (twice_h_asks D.Big.cmp D.Middle.cmp (D.maps m.now.first.now) (T.maps m.now.second.now) n (T.lists m.now.second.now) c.now.terms) }
    ensures prime { IfOk result (λ r. r.prime ≡ (D.maps m.now.first.now).prime) }
    ensures value { IfOk result (λ r. r.terms ≡ twice_h D.Big.cmp D.Middle.cmp (D.maps m.now.first.now) (T.maps m.now.second.now) n c.now.terms) }
    ensures source { Asked S.runs S.refusal T.Stop.refused source.old (twice_h_asks D.Big.cmp D.Middle.cmp (D.maps m.now.first.now) (T.maps m.now.second.now) n (T.lists m.now.second.now) c.now.terms) source.new result }
{
    let rank = n as u64 + 2;
    let raised = m.first.raised(alloc, rank, c)?;
    let start = m.first.lowered(alloc, n as u64 + 1, c)?;
    let back = MapH { of: m.second };
    let middle = apply(alloc, source, &back, &start)?;
    let added = Difference { of: &*m, rank };
    let sum = series_along(alloc, source, &added, &OnKeys { of: &back }, rank, middle)?;
    let lifted = m.first.lifted(alloc, rank, &sum)?;
    Ok(sum_of(alloc, raised, lifted)?)
}

/// The differential of a small generator of degree n: that of the second reduction, and f of the difference of P2 g. It is in normal form.
///
/// A stop is want of memory or the refusal that a map of the second reduction met.
pub fn twice_d<S: Source, D: FirstMaps, T: Reduction<S, Big = D::Middle>>(
    alloc: Global,
    m: &Twice<D, T>,
    source: &mut S,
    n: u32,
    y: &T::Small,
) -> Result<Chain<T::Small>, T::Stop>
where
    D::Middle: Drop,
    T::Small: Drop,
    requires primes { T.prime_of m.now.second.now ≡ (D.maps m.now.first.now).prime }
    requires key { T.may_ask_small m.now.second.now y.now }
    requires keys { MayAskG D.Big.cmp D.Middle.cmp (D.maps m.now.first.now) (T.maps m.now.second.now) n (T.lists m.now.second.now) S.refusal (T.may_ask_big m.now.second.now) y.now }
    requires source { MayAsk S.can_ask S.runs source.old (twice_d_asks D.Big.cmp D.Middle.cmp (D.maps m.now.first.now) (T.maps m.now.second.now) n (T.lists m.now.second.now) y.now) }
    ensures prime { IfOk result (λ r. r.prime ≡ (D.maps m.now.first.now).prime) }
    ensures value { IfOk result (λ r. r.terms ≡ twice_d D.Big.cmp D.Middle.cmp (D.maps m.now.first.now) (T.maps m.now.second.now) n T.Small.cmp y.now) }
    ensures source { Asked S.runs S.refusal T.Stop.refused source.old (twice_d_asks D.Big.cmp D.Middle.cmp (D.maps m.now.first.now) (T.maps m.now.second.now) n (T.lists m.now.second.now) y.now) source.new result }
{
    let rank = n as u64 + 1;
    let added = Difference { of: &*m, rank };
    d_along(alloc, m.second, &added, source, rank, y)
}
