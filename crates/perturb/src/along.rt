// The maps of a reduction to whose big differential a map of whole chains is added.
ghost use Rattle.std.specs.Prelude.{◌≡◌, IfOk};
ghost use Rattle.fp_field.specs.Field.{number};
ghost use Rattle.fp_field.specs.Normal.{normal};
ghost use Rattle.fp_field.specs.Reduction.{after};
ghost use Rattle.chain_core.specs.Asks.{MayAsk, Asked, NoneRefused};
ghost use Rattle.perturb.specs.Perturbation.{perturbed_by};
ghost use Rattle.perturb.specs.PerturbedLists.{series_may_ask, perturbed_g_asks, perturbed_d_asks, transferred_asks};

use crate::chain_maps::{ChainMap, OnKeys};
use crate::series::series_along;
use chain_core::{Chain, Source};
use reduct_laws::{MapF, MapH, Reduction, apply, sum_of};
use std::alloc::Global;

/// P g of a small generator, with P the series of 1 + h delta: the sum of its terms from g(y) up to the first that is 0, and of at most
/// `rank` terms. It is in normal form.
///
/// A stop is want of memory or the refusal that a call of delta or of a map of the reduction met.
pub fn g_along<S: Source, R: Reduction<S>, D: ChainMap<S, R::Big, Stop = R::Stop>>(
    alloc: Global,
    r: &R,
    delta: &D,
    source: &mut S,
    rank: u64,
    y: &R::Small,
) -> Result<Chain<R::Big>, R::Stop>
where
    R::Big: Drop,
    requires prime { D.prime delta.now ≡ R.prime_of r.now }
    requires key { R.may_ask_small r.now y.now }
    requires keys { NoneRefused S.refusal ((R.lists r.now).g y.now) → series_may_ask R.Big.cmp (number (R.prime_of r.now)) (D.image_of delta.now) (R.maps r.now).h S.refusal (D.asks delta.now) (R.lists r.now).h (D.may_be_asked delta.now) (R.may_ask_big r.now) rank (normal R.Big.cmp (number (R.prime_of r.now)) ((R.maps r.now).g y.now)) }
    requires source { MayAsk S.can_ask S.runs source.old (perturbed_g_asks R.Big.cmp (number (R.prime_of r.now)) rank (R.maps r.now) (D.image_of delta.now) (R.lists r.now) (D.asks delta.now) y.now) }
    ensures prime { IfOk result (λ c. c.prime ≡ R.prime_of r.now) }
    ensures value { IfOk result (λ c. c.terms ≡ normal R.Big.cmp (number (R.prime_of r.now)) ((perturbed_by R.Big.cmp (number (R.prime_of r.now)) (λ z. rank) (R.maps r.now) (D.image_of delta.now)).g y.now)) }
    ensures source { Asked S.runs S.refusal R.Stop.refused source.old (perturbed_g_asks R.Big.cmp (number (R.prime_of r.now)) rank (R.maps r.now) (D.image_of delta.now) (R.lists r.now) (D.asks delta.now) y.now) source.new result }
{
    let start = r.g(alloc, source, y)?;
    series_along(
        alloc,
        source,
        delta,
        &OnKeys {
            of: &MapH { of: r },
        },
        rank,
        start,
    )
}

/// d + f delta P g of a small generator. It is in normal form.
///
/// A stop is want of memory or the refusal that a call of delta or of a map of the reduction met.
pub fn d_along<S: Source, R: Reduction<S>, D: ChainMap<S, R::Big, Stop = R::Stop>>(
    alloc: Global,
    r: &R,
    delta: &D,
    source: &mut S,
    rank: u64,
    y: &R::Small,
) -> Result<Chain<R::Small>, R::Stop>
where
    R::Big: Drop,
    R::Small: Drop,
    requires prime { D.prime delta.now ≡ R.prime_of r.now }
    requires key { R.may_ask_small r.now y.now }
    requires keys { NoneRefused S.refusal ((R.lists r.now).g y.now) → series_may_ask R.Big.cmp (number (R.prime_of r.now)) (D.image_of delta.now) (R.maps r.now).h S.refusal (D.asks delta.now) (R.lists r.now).h (D.may_be_asked delta.now) (R.may_ask_big r.now) rank (normal R.Big.cmp (number (R.prime_of r.now)) ((R.maps r.now).g y.now)) }
    requires source { MayAsk S.can_ask S.runs source.old (perturbed_d_asks R.Big.cmp (number (R.prime_of r.now)) rank (R.maps r.now) (D.image_of delta.now) (R.lists r.now) (D.asks delta.now) y.now) }
    ensures prime { IfOk result (λ c. c.prime ≡ R.prime_of r.now) }
    ensures value { IfOk result (λ c. c.terms ≡ normal R.Small.cmp (number (R.prime_of r.now)) ((perturbed_by R.Big.cmp (number (R.prime_of r.now)) (λ z. rank) (R.maps r.now) (D.image_of delta.now)).small.d y.now)) }
    ensures source { Asked S.runs S.refusal R.Stop.refused source.old (perturbed_d_asks R.Big.cmp (number (R.prime_of r.now)) rank (R.maps r.now) (D.image_of delta.now) (R.lists r.now) (D.asks delta.now) y.now) source.new result }
{
    let own = r.small_d(alloc, source, y)?;
    let added = transferred_along(alloc, r, delta, source, rank, y)?;
    Ok(sum_of(alloc, own, added)?)
}

/// What is added to the small differential: f delta P g.
pub fn transferred_along<S: Source, R: Reduction<S>, D: ChainMap<S, R::Big, Stop = R::Stop>>(
    alloc: Global,
    r: &R,
    delta: &D,
    source: &mut S,
    rank: u64,
    y: &R::Small,
) -> Result<Chain<R::Small>, R::Stop>
where
    R::Big: Drop,
    R::Small: Drop,
    requires prime { D.prime delta.now ≡ R.prime_of r.now }
    requires key { R.may_ask_small r.now y.now }
    requires keys { NoneRefused S.refusal ((R.lists r.now).g y.now) → series_may_ask R.Big.cmp (number (R.prime_of r.now)) (D.image_of delta.now) (R.maps r.now).h S.refusal (D.asks delta.now) (R.lists r.now).h (D.may_be_asked delta.now) (R.may_ask_big r.now) rank (normal R.Big.cmp (number (R.prime_of r.now)) ((R.maps r.now).g y.now)) }
    requires source { MayAsk S.can_ask S.runs source.old (transferred_asks R.Big.cmp (number (R.prime_of r.now)) rank (R.maps r.now) (D.image_of delta.now) (R.lists r.now) (D.asks delta.now) y.now) }
    ensures prime { IfOk result (λ c. c.prime ≡ R.prime_of r.now) }
    ensures value { IfOk result (λ c. c.terms ≡ normal R.Small.cmp (number (R.prime_of r.now)) (after (R.maps r.now).f (after (D.image_of delta.now) (perturbed_by R.Big.cmp (number (R.prime_of r.now)) (λ z. rank) (R.maps r.now) (D.image_of delta.now)).g) y.now)) }
    ensures source { Asked S.runs S.refusal R.Stop.refused source.old (transferred_asks R.Big.cmp (number (R.prime_of r.now)) rank (R.maps r.now) (D.image_of delta.now) (R.lists r.now) (D.asks delta.now) y.now) source.new result }
{
    let lifted = g_along(alloc, r, delta, source, rank, y)?;
    let moved = delta.along(alloc, source, &lifted)?;
    apply(alloc, source, &MapF { of: r }, &moved)
}
