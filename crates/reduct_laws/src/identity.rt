// The identity on a chain complex.
ghost use Rattle.std.specs.Prelude.{◌≡◌, ◌<◌, ◌^◌, IfOk, refl};
ghost use Rattle.std.specs.Ordering.{eq_by_cmp};
ghost use Rattle.fp_field.specs.Field.{number};
ghost use Rattle.fp_field.specs.Normal.{normal};
ghost use Rattle.fp_field.specs.Reduction.{one};
ghost use Rattle.reduct_laws.specs.Combinators.{identity};
ghost use Rattle.reduct_laws.specs.Lists.{identity_lists};

use crate::reduction::Reduction;
use chain_core::{Chain, Degrees, LinearMap, Source};
use fp_field as field;
use fp_field::{Fp, Prime};
use std::alloc::{AllocError, Global};

/// The identity on a chain complex over F_p, given by its differential: f and g are the identity, and h is 0.
///
/// A generator may be asked where its degree is below 2^32 and the differential may be asked on it, where clones of keys equal them and
/// the differential is one over this field.
#[derive(Drop)]
pub struct Identity<M> {
    pub p: Prime,
    pub d: M,
}

impl<S: Source, M: Degrees + LinearMap<S, M::Gen, M::Gen>> Reduction<S> for Identity<M>
where
    M::Gen: Clone + Drop,
{
    type Big = M::Gen;

    type Small = M::Gen;

    type Stop = <M as LinearMap<S, M::Gen, M::Gen>>::Stop;

    ghost prime_of = { λ i. i.p };

    ghost maps = { λ i. identity (record { generator = M.generator i.d; same = eq_by_cmp M.Gen.cmp; d = M.image_of i.d }) };

    ghost degree_of = { λ i x. M.degree_of i.d x };

    ghost small_degree_of = { λ i x. M.degree_of i.d x };

    ghost may_ask_degree = { λ i x. M.degree_of i.d x < 2 ^ 32 };

    ghost may_ask_small_degree = { λ i x. M.degree_of i.d x < 2 ^ 32 };

    ghost may_ask_big = { λ i x. (M.degree_of i.d x < 2 ^ 32) × M.may_be_asked i.d x × (M.prime i.d ≡ i.p) × ((x y : M.Gen) → M.Gen.is_clone x y → y ≡ x) };

    ghost may_ask_small = { λ i x. (M.degree_of i.d x < 2 ^ 32) × M.may_be_asked i.d x × (M.prime i.d ≡ i.p) × ((x y : M.Gen) → M.Gen.is_clone x y → y ≡ x) };

    ghost lists = { λ i. identity_lists (M.asks i.d) };

    fn prime(&self) -> field::Prime {
        self.p
    }

    fn degree(&self, x: &M::Gen) -> u32 {
        self.d.degree(x)
    }

    fn small_degree(&self, y: &M::Gen) -> u32 {
        self.d.degree(y)
    }

    fn big_d(
        &self,
        alloc: Global,
        source: &mut S,
        x: &M::Gen,
    ) -> Result<Chain<M::Gen>, Self::Stop> {
        self.d.image(alloc, source, x)
    }

    fn small_d(
        &self,
        alloc: Global,
        source: &mut S,
        y: &M::Gen,
    ) -> Result<Chain<M::Gen>, Self::Stop> {
        self.d.image(alloc, source, y)
    }

    fn f(&self, alloc: Global, source: &mut S, x: &M::Gen) -> Result<Chain<M::Gen>, Self::Stop> {
        let _ = source;
        Ok(single(alloc, self.p, x)?)
    }

    fn g(&self, alloc: Global, source: &mut S, y: &M::Gen) -> Result<Chain<M::Gen>, Self::Stop> {
        let _ = source;
        Ok(single(alloc, self.p, y)?)
    }

    fn h(&self, alloc: Global, source: &mut S, x: &M::Gen) -> Result<Chain<M::Gen>, Self::Stop> {
        let _ = source;
        let _ = x;
        Ok(Chain::new(alloc, self.p))
    }

    ghost one_big = { M.one_key };

    ghost one_small = { M.one_key };

    ghost same_big = { λ i x y. refl };

    ghost same_small = { λ i x y. refl };

    ghost graded_big = { λ i n x g. M.graded i.d n x g };

    ghost graded_small = { λ i n x g. M.graded i.d n x g };

    ghost degree_below = { λ i x h. h };

    ghost small_degree_below = { λ i x h. h };

    ghost degree_asked = { λ i x h. h.0 };

    ghost small_degree_asked = { λ i x h. h.0 };
}

/// The chain of one key with the coefficient 1.
fn single<K: Ord + Clone + Drop>(alloc: Global, p: Prime, k: &K) -> Result<Chain<K>, AllocError>
    requires clones { (x y : K) → K.is_clone x y → y ≡ x }
    ensures prime { IfOk result (λ c. c.prime ≡ p) }
    ensures terms { IfOk result (λ c. c.terms ≡ normal K.cmp (number p) (one k.now)) }
{
    let mut chain = Chain::new(alloc, p);
    chain.add_term(k.clone()?, Fp { value: 1 })?;
    Ok(chain)
}
