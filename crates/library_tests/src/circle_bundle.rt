// The circle bundle of value 2 over the 2-sphere, as far as specs/CircleBundle.antt works it by hand: * and S2 in the base, |, |1|, |2| and
// |1|1| in the fibre.
ghost use Rattle.std.specs.Prelude.{◌≡◌, ◌<◌, ◌^◌, ◌-◌, ◌%◌, [], ◌∷◌, true, cond, IfOk};
ghost use Rattle.std.specs.Ordering.{eq_by_cmp};
ghost use Rattle.std.specs.declared.cmp.Ordering.TheVariants.{Equal};
ghost use Rattle.std.proofs.Common.{refl, sym};
ghost use Rattle.std.proofs.lemmas.Cmp.{ranked};
ghost use Rattle.fp_field.specs.Field.{number};
ghost use Rattle.fp_field.specs.Normal.{normal};
ghost use Rattle.library_tests.specs.CircleBundle.{sphere_generator, list_length, circle, twist, twist_known};

use chain_core::{Chain, Degrees, LinearMap};
use fp_field as field;
use fp_field::{Fp, Prime, value};
use perturb::Perturb;
use reduct_laws::{Identity, Reduction};
use std::alloc::{AllocError, Global};
use tensor_red::{Tensor, TensorReduction};

/// The cells of the base, by their degrees.
pub const VERTEX: u32 = 0;

pub const S2: u32 = 2;

/// The lists of the fibre: |, |1|, |2| and |1|1|.
pub const EMPTY: u32 = 0;

pub const ONE: u32 = 1;

pub const TWO: u32 = 2;

pub const ONE_ONE: u32 = 3;

/// The key with a number, or 0.
fn when<K: Ord + Drop>(
    alloc: Global,
    p: Prime,
    there: bool,
    key: K,
    times: Fp,
) -> Result<Chain<K>, AllocError>
    requires { times.value < number p }
    ensures prime { IfOk result (λ c. c.prime ≡ p) }
    ensures terms { IfOk result (λ c. c.terms ≡ normal K.cmp (number p) (cond there ((key, times.value) ∷ []) [])) }
{
    let mut chain = Chain::new(alloc, p);
    if there {
        chain.add_term(key, times)?;
    }
    Ok(chain)
}

/// 2 in F_p.
fn two(p: Prime) -> Fp
    ensures value { result.value ≡ 2 % number p }
    ensures element { result.value < number p }
{
    Fp {
        value: 2 % value(p),
    }
}

/// -1 in F_p.
fn minus_one(p: Prime) -> Fp
    ensures value { result.value ≡ number p - 1 }
    ensures element { result.value < number p }
{
    Fp {
        value: value(p) - 1,
    }
}

/// The 2-sphere.
#[derive(Drop)]
pub struct Sphere {
    pub p: Prime,
}

impl Degrees for Sphere {
    type Gen = u32;

    ghost generator = { λ s n x. sphere_generator n x };

    ghost degree_of = { λ s x. x };

    fn degree(&self, x: &u32) -> u32 {
        *x
    }

    ghost graded = { λ s n x g. g.1 };
}

impl LinearMap<(), u32, u32> for Sphere {
    type Stop = AllocError;

    ghost prime = { λ s. s.p };

    ghost may_be_asked = { λ s x. Unit {0} };

    ghost image_of = { λ s x. [] };

    ghost asks = { λ s x. [] };

    fn image(&self, alloc: Global, source: &mut (), x: &u32) -> Result<Chain<u32>, AllocError> {
        let _ = source;
        let _ = x;
        Ok(Chain::new(alloc, self.p))
    }

    ghost one_key = { λ x y e. ranked x y Equal (sym e) };
}

/// Four lists of K(Z,1), and their reduction to the circle.
#[derive(Drop)]
pub struct Circle {
    pub p: Prime,
}

impl Reduction<()> for Circle {
    type Big = u32;

    type Small = u32;

    type Stop = AllocError;

    ghost prime_of = { λ c. c.p };

    ghost maps = { λ c. circle (eq_by_cmp ⟦<u32 as Ord>⟧.cmp) (number c.p) };

    ghost degree_of = { λ c x. list_length x };

    ghost small_degree_of = { λ c y. list_length y };

    ghost may_ask_degree = { λ c x. list_length x < 2 ^ 32 };

    ghost may_ask_small_degree = { λ c y. list_length y < 2 ^ 32 };

    ghost may_ask_big = { λ c x. list_length x < 2 ^ 32 };

    ghost may_ask_small = { λ c y. list_length y < 2 ^ 32 };

    ghost lists = { λ c. record { big_d = λ x. []; small_d = λ y. []; f = λ x. []; g = λ y. []; h = λ x. [] } };

    fn prime(&self) -> field::Prime {
        self.p
    }

    fn degree(&self, x: &u32) -> u32 {
        length_of(*x)
    }

    fn small_degree(&self, y: &u32) -> u32 {
        length_of(*y)
    }

    fn big_d(&self, alloc: Global, source: &mut (), x: &u32) -> Result<Chain<u32>, AllocError> {
        let _ = source;
        let mut terms = Vec::new(alloc);
        if *x == ONE_ONE {
            terms.push((ONE, two(self.p)))?;
            terms.push((TWO, minus_one(self.p)))?;
        }
        Chain::from_terms(alloc, self.p, terms)
    }

    fn small_d(&self, alloc: Global, source: &mut (), y: &u32) -> Result<Chain<u32>, AllocError> {
        let _ = source;
        let _ = y;
        Ok(Chain::new(alloc, self.p))
    }

    fn f(&self, alloc: Global, source: &mut (), x: &u32) -> Result<Chain<u32>, AllocError> {
        let _ = source;
        let to = if *x == EMPTY { EMPTY } else { ONE };
        let times = if *x == TWO {
            two(self.p)
        } else {
            Fp { value: 1 }
        };
        when(alloc, self.p, *x < ONE_ONE, to, times)
    }

    fn g(&self, alloc: Global, source: &mut (), y: &u32) -> Result<Chain<u32>, AllocError> {
        let _ = source;
        when(alloc, self.p, true, *y, Fp { value: 1 })
    }

    fn h(&self, alloc: Global, source: &mut (), x: &u32) -> Result<Chain<u32>, AllocError> {
        let _ = source;
        when(alloc, self.p, *x == TWO, ONE_ONE, minus_one(self.p))
    }

    ghost one_big = { λ x y e. ranked x y Equal (sym e) };

    ghost one_small = { λ x y e. ranked x y Equal (sym e) };

    ghost same_big = { λ c x y. refl };

    ghost same_small = { λ c x y. refl };

    ghost graded_big = { λ c n x g. g.1 };

    ghost graded_small = { λ c n y g. g.1 };

    ghost degree_below = { λ c x h. h };

    ghost small_degree_below = { λ c y h. h };

    ghost degree_asked = { λ c x h. h };

    ghost small_degree_asked = { λ c y h. h };
}

/// The number of integers in a list.
fn length_of(x: u32) -> u32
    ensures { result ≡ list_length x }
{
    if x == EMPTY {
        0
    } else if x == ONE_ONE {
        2
    } else {
        1
    }
}

/// The tensor product of both.
pub type Tensors = TensorReduction<Identity<Sphere>, Circle>;

/// What the twist of value 2 adds to its differential.
#[derive(Drop)]
pub struct Twist {
    pub p: Prime,
}

impl Perturb<(), Tensors> for Twist {
    ghost prime_of = { λ t. t.p };

    ghost delta_of = { λ t x. twist x };

    ghost may_be_asked = { λ t x. twist_known x ≡ true };

    ghost asks = { λ t x. [] };

    fn delta(
        &self,
        alloc: Global,
        source: &mut (),
        x: &Tensor<u32, u32>,
    ) -> Result<Chain<Tensor<u32, u32>>, AllocError> {
        let _ = source;
        when(
            alloc,
            self.p,
            x.left == S2,
            tensor_of(VERTEX, TWO),
            Fp { value: 1 },
        )
    }
}

/// The tensor of a cell of the base and a list.
pub fn tensor_of(left: u32, right: u32) -> Tensor<u32, u32>
    ensures { result ≡ record { left = left; right = right } }
{
    Tensor { left, right }
}

/// The tensor product over this prime.
pub fn tensors_over(p: Prime) -> Tensors
    ensures { result ≡ record { left = record { p = p; d = record { p = p } }; right = record { p = p } } }
{
    TensorReduction {
        left: Identity { p, d: Sphere { p } },
        right: Circle { p },
    }
}
