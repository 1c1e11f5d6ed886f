// The worked example: over F_3 the generators are x and u in degree 0, y and v in degree 1, with d(v) = u and h(u) = v; the small
// complex has x and y; delta(y) = u and delta(v) = x. So P y = y - v, and the new small d has d(y) = f(delta(y - v)) = -x.
ghost use Rattle.std.specs.Prelude.{◌≡◌, ◌<◌, ◌^◌, [], ◌∷◌, nat_eq, nat_lt, cond, IfOk};
ghost use Rattle.std.specs.Ordering.{eq_by_cmp};
ghost use Rattle.std.specs.declared.cmp.Ordering.TheVariants.{Equal};
ghost use Rattle.std.proofs.Common.{refl, sym};
ghost use Rattle.std.proofs.lemmas.Cmp.{ranked};
ghost use Rattle.fp_field.specs.declared.prime.Prime.TheVariants.{Three};
ghost use Rattle.fp_field.specs.Normal.{normal};
ghost use Rattle.perturb.specs.Worked.{worked, worked_degree, worked_delta};

use crate::answers::ONE;
use chain_core::Chain;
use fp_field as field;
use fp_field::Prime;
use perturb::Perturb;
use reduct_laws::Reduction;
use std::alloc::{AllocError, Global};

pub const X: u32 = 0;

pub const U: u32 = 1;

pub const Y: u32 = 2;

pub const V: u32 = 3;

/// The key, or 0.
fn when(alloc: Global, there: bool, key: u32) -> Result<Chain<u32>, AllocError>
    ensures prime { IfOk result (λ c. c.prime ≡ Three) }
    ensures terms { IfOk result (λ c. c.terms ≡ normal ⟦<u32 as Ord>⟧.cmp 3 (cond there ((key, 1) ∷ []) [])) }
{
    let mut chain = Chain::new(alloc, Prime::Three);
    if there {
        chain.add_term(key, ONE)?;
    }
    Ok(chain)
}

/// The reduction.
#[derive(Drop)]
pub struct Tiny;

impl Reduction<()> for Tiny {
    type Big = u32;

    type Small = u32;

    type Stop = AllocError;

    ghost prime_of = { λ t. Three };

    ghost maps = { λ t. worked (eq_by_cmp ⟦<u32 as Ord>⟧.cmp) };

    ghost degree_of = { λ t x. worked_degree x };

    ghost small_degree_of = { λ t x. worked_degree x };

    ghost may_ask_degree = { λ t x. worked_degree x < 2 ^ 32 };

    ghost may_ask_small_degree = { λ t x. worked_degree x < 2 ^ 32 };

    ghost may_ask_big = { λ t x. worked_degree x < 2 ^ 32 };

    ghost may_ask_small = { λ t x. worked_degree x < 2 ^ 32 };

    ghost lists = { λ t. record { big_d = λ x. []; small_d = λ x. []; f = λ x. []; g = λ x. []; h = λ x. [] } };

    fn prime(&self) -> field::Prime {
        Prime::Three
    }

    fn degree(&self, x: &u32) -> u32 {
        if *x < 2 { 0 } else { 1 }
    }

    fn small_degree(&self, y: &u32) -> u32 {
        if *y < 2 { 0 } else { 1 }
    }

    fn big_d(&self, alloc: Global, source: &mut (), x: &u32) -> Result<Chain<u32>, AllocError> {
        let _ = source;
        when(alloc, *x == V, U)
    }

    fn small_d(&self, alloc: Global, source: &mut (), y: &u32) -> Result<Chain<u32>, AllocError> {
        let _ = source;
        when(alloc, false, *y)
    }

    fn f(&self, alloc: Global, source: &mut (), x: &u32) -> Result<Chain<u32>, AllocError> {
        let _ = source;
        when(alloc, *x == X || *x == Y, *x)
    }

    fn g(&self, alloc: Global, source: &mut (), y: &u32) -> Result<Chain<u32>, AllocError> {
        let _ = source;
        when(alloc, true, *y)
    }

    fn h(&self, alloc: Global, source: &mut (), x: &u32) -> Result<Chain<u32>, AllocError> {
        let _ = source;
        when(alloc, *x == U, V)
    }

    ghost one_big = { λ x y e. ranked x y Equal (sym e) };

    ghost one_small = { λ x y e. ranked x y Equal (sym e) };

    ghost same_big = { λ t x y. refl };

    ghost same_small = { λ t x y. refl };

    ghost graded_big = { λ t n x g. g };

    ghost graded_small = { λ t n x g. g };

    ghost degree_below = { λ t x h. h };

    ghost small_degree_below = { λ t x h. h };

    ghost degree_asked = { λ t x h. h };

    ghost small_degree_asked = { λ t x h. h };
}

/// What is added to its differential.
#[derive(Drop)]
pub struct Added;

impl Perturb<(), Tiny> for Added {
    ghost prime_of = { λ a. Three };

    ghost delta_of = { λ a x. worked_delta x };

    ghost may_be_asked = { λ a x. worked_degree x < 2 ^ 32 };

    ghost asks = { λ a x. [] };

    fn delta(&self, alloc: Global, source: &mut (), x: &u32) -> Result<Chain<u32>, AllocError> {
        let _ = source;
        let to = if *x == V { X } else { U };
        when(alloc, *x == V || *x == Y, to)
    }
}
