// Two reductions side by side.
ghost use Rattle.std.specs.Prelude.{◌≡◌, ◌<◌, ◌^◌, refl};
ghost use Rattle.std.specs.Ordering.{eq_by_cmp};
ghost use Rattle.std.specs.declared.cmp.Ordering.TheVariants.{Equal};
ghost use Rattle.std.proofs.Common.{ap};
ghost use Rattle.reduct_laws.specs.declared.sides.Side.TheVariants.{Left, Right};
ghost use Rattle.reduct_laws.specs.Sides.{by_side, OfSide, summed, summed_lists};
ghost use Rattle.reduct_laws.specs.SideCases.{one_side, two_sides, not_less, not_greater};

use crate::chains::{lefts, rights};
use crate::reduction::Reduction;
use crate::sides::Side;
use chain_core::{Chain, Source};
use fp_field as field;
use std::alloc::Global;

/// The sum of two reductions over one prime: on generators of each side the maps of that side.
#[derive(Drop)]
pub struct Summed<A, B> {
    pub left: A,
    pub right: B,
}

impl<S: Source, A: Reduction<S>, B: Reduction<S, Stop = A::Stop>> Reduction<S> for Summed<A, B>
where
    A::Big: Drop,
    A::Small: Drop,
    B::Big: Drop,
    B::Small: Drop,
{
    type Big = Side<A::Big, B::Big>;

    type Small = Side<A::Small, B::Small>;

    type Stop = A::Stop;

    ghost prime_of = { λ s. A.prime_of s.left };

    ghost maps = { λ s. summed (A.maps s.left) (B.maps s.right) };

    ghost degree_of = { λ s. by_side (A.degree_of s.left) (B.degree_of s.right) };

    ghost small_degree_of = { λ s. by_side (A.small_degree_of s.left) (B.small_degree_of s.right) };

    ghost may_ask_degree = { λ s. OfSide (A.may_ask_degree s.left) (B.may_ask_degree s.right) };

    ghost may_ask_small_degree = { λ s. OfSide (A.may_ask_small_degree s.left) (B.may_ask_small_degree s.right) };

    ghost may_ask_big = { λ s x. (B.prime_of s.right ≡ A.prime_of s.left) × OfSide (A.may_ask_big s.left) (B.may_ask_big s.right) x };

    ghost may_ask_small = { λ s y. (B.prime_of s.right ≡ A.prime_of s.left) × OfSide (A.may_ask_small s.left) (B.may_ask_small s.right) y };

    ghost lists = { λ s. summed_lists (A.lists s.left) (B.lists s.right) };

    fn prime(&self) -> field::Prime {
        self.left.prime()
    }

    fn degree(&self, x: &Side<A::Big, B::Big>) -> u32 {
        match x {
            Side::Left(x) => self.left.degree(x),
            Side::Right(x) => self.right.degree(x),
        }
    }

    fn small_degree(&self, y: &Side<A::Small, B::Small>) -> u32 {
        match y {
            Side::Left(y) => self.left.small_degree(y),
            Side::Right(y) => self.right.small_degree(y),
        }
    }

    fn big_d(
        &self,
        alloc: Global,
        source: &mut S,
        x: &Side<A::Big, B::Big>,
    ) -> Result<Chain<Side<A::Big, B::Big>>, A::Stop> {
        match x {
            Side::Left(x) => Ok(lefts(alloc, self.left.big_d(alloc, source, x)?)?),
            Side::Right(x) => Ok(rights(alloc, self.right.big_d(alloc, source, x)?)?),
        }
    }

    fn small_d(
        &self,
        alloc: Global,
        source: &mut S,
        y: &Side<A::Small, B::Small>,
    ) -> Result<Chain<Side<A::Small, B::Small>>, A::Stop> {
        match y {
            Side::Left(y) => Ok(lefts(alloc, self.left.small_d(alloc, source, y)?)?),
            Side::Right(y) => Ok(rights(alloc, self.right.small_d(alloc, source, y)?)?),
        }
    }

    fn f(
        &self,
        alloc: Global,
        source: &mut S,
        x: &Side<A::Big, B::Big>,
    ) -> Result<Chain<Side<A::Small, B::Small>>, A::Stop> {
        match x {
            Side::Left(x) => Ok(lefts(alloc, self.left.f(alloc, source, x)?)?),
            Side::Right(x) => Ok(rights(alloc, self.right.f(alloc, source, x)?)?),
        }
    }

    fn g(
        &self,
        alloc: Global,
        source: &mut S,
        y: &Side<A::Small, B::Small>,
    ) -> Result<Chain<Side<A::Big, B::Big>>, A::Stop> {
        match y {
            Side::Left(y) => Ok(lefts(alloc, self.left.g(alloc, source, y)?)?),
            Side::Right(y) => Ok(rights(alloc, self.right.g(alloc, source, y)?)?),
        }
    }

    fn h(
        &self,
        alloc: Global,
        source: &mut S,
        x: &Side<A::Big, B::Big>,
    ) -> Result<Chain<Side<A::Big, B::Big>>, A::Stop> {
        match x {
            Side::Left(x) => Ok(lefts(alloc, self.left.h(alloc, source, x)?)?),
            Side::Right(x) => Ok(rights(alloc, self.right.h(alloc, source, x)?)?),
        }
    }

    ghost one_big = { two_sides (λ s t. ⟦<Side<A::Big, B::Big> as Ord>⟧.cmp s t ≡ Equal → s ≡ t) (λ x y e. ap Left (A.one_big x y e)) (λ x y e. not_less e) (λ x y e. not_greater e) (λ x y e. ap Right (B.one_big x y e)) };

    ghost one_small = { two_sides (λ s t. ⟦<Side<A::Small, B::Small> as Ord>⟧.cmp s t ≡ Equal → s ≡ t) (λ x y e. ap Left (A.one_small x y e)) (λ x y e. not_less e) (λ x y e. not_greater e) (λ x y e. ap Right (B.one_small x y e)) };

    ghost same_big = { λ r. two_sides (λ s t. (summed (A.maps r.left) (B.maps r.right)).big.same s t ≡ eq_by_cmp ⟦<Side<A::Big, B::Big> as Ord>⟧.cmp s t) (λ x y. A.same_big r.left x y) (λ x y. refl) (λ x y. refl) (λ x y. B.same_big r.right x y) };

    ghost same_small = { λ r. two_sides (λ s t. (summed (A.maps r.left) (B.maps r.right)).small.same s t ≡ eq_by_cmp ⟦<Side<A::Small, B::Small> as Ord>⟧.cmp s t) (λ x y. A.same_small r.left x y) (λ x y. refl) (λ x y. refl) (λ x y. B.same_small r.right x y) };

    ghost graded_big = { λ r n. one_side (λ s. (summed (A.maps r.left) (B.maps r.right)).big.generator n s → by_side (A.degree_of r.left) (B.degree_of r.right) s ≡ n) (λ x g. A.graded_big r.left n x g) (λ x g. B.graded_big r.right n x g) };

    ghost graded_small = { λ r n. one_side (λ s. (summed (A.maps r.left) (B.maps r.right)).small.generator n s → by_side (A.small_degree_of r.left) (B.small_degree_of r.right) s ≡ n) (λ x g. A.graded_small r.left n x g) (λ x g. B.graded_small r.right n x g) };

    ghost degree_below = { λ r. one_side (λ s. OfSide (A.may_ask_degree r.left) (B.may_ask_degree r.right) s → by_side (A.degree_of r.left) (B.degree_of r.right) s < 2 ^ 32) (λ x h. A.degree_below r.left x h) (λ x h. B.degree_below r.right x h) };

    ghost small_degree_below = { λ r. one_side (λ s. OfSide (A.may_ask_small_degree r.left) (B.may_ask_small_degree r.right) s → by_side (A.small_degree_of r.left) (B.small_degree_of r.right) s < 2 ^ 32) (λ x h. A.small_degree_below r.left x h) (λ x h. B.small_degree_below r.right x h) };

    ghost degree_asked = { λ r s h. one_side (λ s. OfSide (A.may_ask_big r.left) (B.may_ask_big r.right) s → OfSide (A.may_ask_degree r.left) (B.may_ask_degree r.right) s) (λ x h. A.degree_asked r.left x h) (λ x h. B.degree_asked r.right x h) s h.1 };

    ghost small_degree_asked = { λ r s h. one_side (λ s. OfSide (A.may_ask_small r.left) (B.may_ask_small r.right) s → OfSide (A.may_ask_small_degree r.left) (B.may_ask_small_degree r.right) s) (λ x h. A.small_degree_asked r.left x h) (λ x h. B.small_degree_asked r.right x h) s h.1 };
}
