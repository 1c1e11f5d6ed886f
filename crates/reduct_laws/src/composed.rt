// Two reductions after one another.
ghost use Rattle.std.specs.Prelude.{◌≡◌, IfOk};
ghost use Rattle.fp_field.specs.Field.{number};
ghost use Rattle.fp_field.specs.Reduction.{after};
ghost use Rattle.fp_field.specs.Normal.{normal};
ghost use Rattle.chain_core.specs.Asks.{MayAsk, Asked};
ghost use Rattle.reduct_laws.specs.Combinators.{composed};
ghost use Rattle.reduct_laws.specs.Lists.{lifted_asks, composed_lists, composed_may_ask, composed_may_ask_small};

use crate::chains::{apply, sum_of};
use crate::reduction::{MapF, MapG, MapH, Reduction};
use chain_core::{Chain, Source};
use fp_field as field;
use std::alloc::Global;

/// The reduction of the big complex of the first to the small one of the second, where the small complex of the first is the big one of
/// the second: f2 f1, g1 g2 and h1 + g1 h2 f1. The parts have one prime.
#[derive(Drop)]
pub struct Composed<A, B> {
    pub first: A,
    pub second: B,
}

impl<S: Source, A: Reduction<S>, B: Reduction<S, Big = A::Small, Stop = A::Stop>> Reduction<S>
    for Composed<A, B>
where
    A::Big: Drop,
    A::Small: Drop,
    B::Small: Drop,
{
    type Big = A::Big;

    type Small = B::Small;

    type Stop = A::Stop;

    ghost prime_of = { λ c. A.prime_of c.first };

    ghost maps = { λ c. composed (A.maps c.first) (B.maps c.second) };

    ghost degree_of = { λ c x. A.degree_of c.first x };

    ghost small_degree_of = { λ c y. B.small_degree_of c.second y };

    ghost may_ask_degree = { λ c x. A.may_ask_degree c.first x };

    ghost may_ask_small_degree = { λ c y. B.may_ask_small_degree c.second y };

    ghost may_ask_big = { λ c x. (B.prime_of c.second ≡ A.prime_of c.first) × composed_may_ask A.Small.cmp (number (A.prime_of c.first)) (A.maps c.first) (B.maps c.second) (A.may_ask_big c.first) (A.may_ask_small c.first) (B.may_ask_big c.second) x };

    ghost may_ask_small = { λ c y. (B.prime_of c.second ≡ A.prime_of c.first) × composed_may_ask_small A.Small.cmp (number (A.prime_of c.first)) (A.maps c.first) (B.maps c.second) (A.may_ask_small c.first) (B.may_ask_small c.second) y };

    ghost lists = { λ c. composed_lists A.Small.cmp (number (A.prime_of c.first)) (A.maps c.first) (B.maps c.second) (A.lists c.first) (B.lists c.second) };

    fn prime(&self) -> field::Prime {
        self.first.prime()
    }

    fn degree(&self, x: &A::Big) -> u32 {
        self.first.degree(x)
    }

    fn small_degree(&self, y: &B::Small) -> u32 {
        self.second.small_degree(y)
    }

    fn big_d(&self, alloc: Global, source: &mut S, x: &A::Big) -> Result<Chain<A::Big>, A::Stop> {
        self.first.big_d(alloc, source, x)
    }

    fn small_d(
        &self,
        alloc: Global,
        source: &mut S,
        y: &B::Small,
    ) -> Result<Chain<B::Small>, A::Stop> {
        self.second.small_d(alloc, source, y)
    }

    fn f(&self, alloc: Global, source: &mut S, x: &A::Big) -> Result<Chain<B::Small>, A::Stop> {
        let middle = self.first.f(alloc, source, x)?;
        apply(alloc, source, &MapF { of: &self.second }, &middle)
    }

    fn g(&self, alloc: Global, source: &mut S, y: &B::Small) -> Result<Chain<A::Big>, A::Stop> {
        let middle = self.second.g(alloc, source, y)?;
        apply(alloc, source, &MapG { of: &self.first }, &middle)
    }

    fn h(&self, alloc: Global, source: &mut S, x: &A::Big) -> Result<Chain<A::Big>, A::Stop> {
        let own = self.first.h(alloc, source, x)?;
        let lifted = lifted_homotopy(alloc, source, self, x)?;
        Ok(sum_of(alloc, own, lifted)?)
    }

    ghost one_big = { A.one_big };

    ghost one_small = { B.one_small };

    ghost same_big = { λ c x y. A.same_big c.first x y };

    ghost same_small = { λ c x y. B.same_small c.second x y };

    ghost graded_big = { λ c n x g. A.graded_big c.first n x g };

    ghost graded_small = { λ c n y g. B.graded_small c.second n y g };

    ghost degree_below = { λ c x h. A.degree_below c.first x h };

    ghost small_degree_below = { λ c y h. B.small_degree_below c.second y h };

    ghost degree_asked = { λ c x h. A.degree_asked c.first x h.1.0 };

    ghost small_degree_asked = { λ c y h. B.small_degree_asked c.second y h.1.0 };
}

/// The homotopy of the second part, brought to the big complex of the first: g1 h2 f1.
fn lifted_homotopy<S: Source, A: Reduction<S>, B: Reduction<S, Big = A::Small, Stop = A::Stop>>(
    alloc: Global,
    source: &mut S,
    parts: &Composed<A, B>,
    x: &A::Big,
) -> Result<Chain<A::Big>, A::Stop>
where
    A::Big: Drop,
    A::Small: Drop,
    requires prime { B.prime_of parts.now.second ≡ A.prime_of parts.now.first }
    requires key { composed_may_ask A.Small.cmp (number (A.prime_of parts.now.first)) (A.maps parts.now.first) (B.maps parts.now.second) (A.may_ask_big parts.now.first) (A.may_ask_small parts.now.first) (B.may_ask_big parts.now.second) x.now }
    requires source { MayAsk S.can_ask S.runs source.old (lifted_asks A.Small.cmp (number (A.prime_of parts.now.first)) (A.maps parts.now.first) (B.maps parts.now.second) (A.lists parts.now.first) (B.lists parts.now.second) x.now) }
    ensures prime { IfOk result (λ c. c.prime ≡ A.prime_of parts.now.first) }
    ensures value { IfOk result (λ c. c.terms ≡ normal A.Big.cmp (number (A.prime_of parts.now.first)) (after (A.maps parts.now.first).g (after (B.maps parts.now.second).h (A.maps parts.now.first).f) x.now)) }
    ensures source { Asked S.runs S.refusal A.Stop.refused source.old (lifted_asks A.Small.cmp (number (A.prime_of parts.now.first)) (A.maps parts.now.first) (B.maps parts.now.second) (A.lists parts.now.first) (B.lists parts.now.second) x.now) source.new result }
{
    let middle = parts.first.f(alloc, source, x)?;
    let raised = apply(alloc, source, &MapH { of: &parts.second }, &middle)?;
    apply(alloc, source, &MapG { of: &parts.first }, &raised)
}
