// The tensor product of two reductions.
ghost use Rattle.std.specs.Prelude.{◌≡◌, ◌+◌, ◌<◌, ◌^◌, IfOk};
ghost use Rattle.fp_field.specs.Field.{number};
ghost use Rattle.fp_field.specs.Chains.{Each};
ghost use Rattle.fp_field.specs.Normal.{normal};
ghost use Rattle.fp_field.specs.Reduction.{after};
ghost use Rattle.chain_core.specs.Asks.{MayAsk, Asked};
ghost use Rattle.tensor_red.specs.Tensors.{tensor_maps, ClonesEqual, BothMayBeAsked, there_and_back_asks, tensor_lists};
ghost use Rattle.tensor_red.specs.TensorOrder.{one_tensor, same_tensor, sum_graded};

use crate::products::{boundary, homotopy, product_of};
use crate::tensors::Tensor;
use chain_core::{Chain, Source};
use fp_field as field;
use reduct_laws::{MapG, Reduction, apply};
use std::alloc::Global;

/// The tensor product of two reductions over one prime: the generators are the tensors of the generators of the parts, the degrees add up,
/// and with i the degree of x
///
/// d(x ⊗ y) = d(x) ⊗ y + (-1)^i x ⊗ d(y), f = f1 ⊗ f2, g = g1 ⊗ g2, h(x ⊗ y) = h1(x) ⊗ y + (-1)^i g1(f1(x)) ⊗ h2(y).
///
/// A tensor may be asked where its degree is below 2^32 and the parts may be asked on all generators that the maps call them on, where
/// the parts have one prime, and where clones of keys equal them.
#[derive(Drop)]
pub struct TensorReduction<A, B> {
    pub left: A,
    pub right: B,
}

/// The tensor product of two reductions (Rubio and Sergeraert, Constructive Homological Algebra and Applications, chapter 2).
pub fn tensor_reduction<A, B>(a: A, b: B) -> TensorReduction<A, B>
    ensures left { result.left ≡ a }
    ensures right { result.right ≡ b }
{
    TensorReduction { left: a, right: b }
}

impl<S: Source, A: Reduction<S>, B: Reduction<S, Stop = A::Stop>> Reduction<S>
    for TensorReduction<A, B>
where
    A::Big: Clone + Drop,
    A::Small: Clone + Drop,
    B::Big: Clone + Drop,
    B::Small: Clone + Drop,
{
    type Big = Tensor<A::Big, B::Big>;

    type Small = Tensor<A::Small, B::Small>;

    type Stop = A::Stop;

    ghost prime_of = { λ t. A.prime_of t.left };

    ghost maps = { λ t. tensor_maps (number (A.prime_of t.left)) (A.degree_of t.left) (A.small_degree_of t.left) (A.maps t.left) (B.maps t.right) };

    ghost degree_of = { λ t x. A.degree_of t.left x.left + B.degree_of t.right x.right };

    ghost small_degree_of = { λ t y. A.small_degree_of t.left y.left + B.small_degree_of t.right y.right };

    ghost may_ask_degree = { λ t. BothMayBeAsked (A.may_ask_degree t.left) (B.may_ask_degree t.right) (A.degree_of t.left) (B.degree_of t.right) };

    ghost may_ask_small_degree = { λ t. BothMayBeAsked (A.may_ask_small_degree t.left) (B.may_ask_small_degree t.right) (A.small_degree_of t.left) (B.small_degree_of t.right) };

    ghost may_ask_big = { λ t x. (B.prime_of t.right ≡ A.prime_of t.left) × BothMayBeAsked (A.may_ask_big t.left) (B.may_ask_big t.right) (A.degree_of t.left) (B.degree_of t.right) x × Each (A.may_ask_small t.left) (normal A.Small.cmp (number (A.prime_of t.left)) ((A.maps t.left).f x.left)) × ClonesEqual A.Big.is_clone × ClonesEqual B.Big.is_clone × ClonesEqual A.Small.is_clone × ClonesEqual B.Small.is_clone };

    ghost may_ask_small = { λ t y. (B.prime_of t.right ≡ A.prime_of t.left) × BothMayBeAsked (A.may_ask_small t.left) (B.may_ask_small t.right) (A.small_degree_of t.left) (B.small_degree_of t.right) y × ClonesEqual A.Big.is_clone × ClonesEqual B.Big.is_clone × ClonesEqual A.Small.is_clone × ClonesEqual B.Small.is_clone };

    ghost lists = { λ t. tensor_lists A.Small.cmp (number (A.prime_of t.left)) (A.maps t.left) (A.lists t.left) (B.lists t.right) };

    fn prime(&self) -> field::Prime {
        self.left.prime()
    }

    fn degree(&self, x: &Tensor<A::Big, B::Big>) -> u32 {
        self.left.degree(&x.left) + self.right.degree(&x.right)
    }

    fn small_degree(&self, y: &Tensor<A::Small, B::Small>) -> u32 {
        self.left.small_degree(&y.left) + self.right.small_degree(&y.right)
    }

    fn big_d(
        &self,
        alloc: Global,
        source: &mut S,
        x: &Tensor<A::Big, B::Big>,
    ) -> Result<Chain<Tensor<A::Big, B::Big>>, A::Stop> {
        let left = self.left.big_d(alloc, source, &x.left)?;
        let right = self.right.big_d(alloc, source, &x.right)?;
        Ok(boundary(alloc, self.left.degree(&x.left), x, left, right)?)
    }

    fn small_d(
        &self,
        alloc: Global,
        source: &mut S,
        y: &Tensor<A::Small, B::Small>,
    ) -> Result<Chain<Tensor<A::Small, B::Small>>, A::Stop> {
        let left = self.left.small_d(alloc, source, &y.left)?;
        let right = self.right.small_d(alloc, source, &y.right)?;
        Ok(boundary(alloc, self.left.small_degree(&y.left), y, left, right)?)
    }

    fn f(
        &self,
        alloc: Global,
        source: &mut S,
        x: &Tensor<A::Big, B::Big>,
    ) -> Result<Chain<Tensor<A::Small, B::Small>>, A::Stop> {
        let first = self.left.f(alloc, source, &x.left)?;
        let second = self.right.f(alloc, source, &x.right)?;
        Ok(product_of(alloc, first, &second)?)
    }

    fn g(
        &self,
        alloc: Global,
        source: &mut S,
        y: &Tensor<A::Small, B::Small>,
    ) -> Result<Chain<Tensor<A::Big, B::Big>>, A::Stop> {
        let left = self.left.g(alloc, source, &y.left)?;
        let right = self.right.g(alloc, source, &y.right)?;
        Ok(product_of(alloc, left, &right)?)
    }

    fn h(
        &self,
        alloc: Global,
        source: &mut S,
        x: &Tensor<A::Big, B::Big>,
    ) -> Result<Chain<Tensor<A::Big, B::Big>>, A::Stop> {
        let own = self.left.h(alloc, source, &x.left)?;
        let back = there_and_back(alloc, source, &self.left, &x.left)?;
        let other = self.right.h(alloc, source, &x.right)?;
        Ok(homotopy(alloc, self.left.degree(&x.left), &x.right, own, back, other)?)
    }

    ghost one_big = { one_tensor A.Big.cmp B.Big.cmp A.one_big B.one_big };

    ghost one_small = { one_tensor A.Small.cmp B.Small.cmp A.one_small B.one_small };

    ghost same_big = { λ t. same_tensor A.Big.cmp B.Big.cmp (A.maps t.left).big.same (B.maps t.right).big.same (A.same_big t.left) (B.same_big t.right) };

    ghost same_small = { λ t. same_tensor A.Small.cmp B.Small.cmp (A.maps t.left).small.same (B.maps t.right).small.same (A.same_small t.left) (B.same_small t.right) };

    ghost graded_big = { λ t n x g. sum_graded (A.degree_of t.left x.left) g.0 (B.degree_of t.right x.right) g.1 n (A.graded_big t.left g.0 x.left g.2) (B.graded_big t.right g.1 x.right g.3) g.4 };

    ghost graded_small = { λ t n y g. sum_graded (A.small_degree_of t.left y.left) g.0 (B.small_degree_of t.right y.right) g.1 n (A.graded_small t.left g.0 y.left g.2) (B.graded_small t.right g.1 y.right g.3) g.4 };

    ghost degree_below = { λ t x h. h.2 };

    ghost small_degree_below = { λ t y h. h.2 };

    ghost degree_asked = { λ t x h. (A.degree_asked t.left x.left h.1.0, B.degree_asked t.right x.right h.1.1, h.1.2) };

    ghost small_degree_asked = { λ t y h. (A.small_degree_asked t.left y.left h.1.0, B.small_degree_asked t.right y.right h.1.1, h.1.2) };
}

/// g f of a big generator of one part.
fn there_and_back<S: Source, A: Reduction<S>>(
    alloc: Global,
    source: &mut S,
    part: &A,
    x: &A::Big,
) -> Result<Chain<A::Big>, A::Stop>
where
    A::Big: Drop,
    A::Small: Drop,
    requires key { A.may_ask_big part.now x.now }
    requires small { Each (A.may_ask_small part.now) (normal A.Small.cmp (number (A.prime_of part.now)) ((A.maps part.now).f x.now)) }
    requires source { MayAsk S.can_ask S.runs source.old (there_and_back_asks A.Small.cmp (number (A.prime_of part.now)) (A.maps part.now) (A.lists part.now) x.now) }
    ensures prime { IfOk result (λ c. c.prime ≡ A.prime_of part.now) }
    ensures value { IfOk result (λ c. c.terms ≡ normal A.Big.cmp (number (A.prime_of part.now)) (after (A.maps part.now).g (A.maps part.now).f x.now)) }
    ensures source { Asked S.runs S.refusal A.Stop.refused source.old (there_and_back_asks A.Small.cmp (number (A.prime_of part.now)) (A.maps part.now) (A.lists part.now) x.now) source.new result }
{
    let small = part.f(alloc, source, x)?;
    apply(alloc, source, &MapG { of: part }, &small)
}
