// The worked perturbation over F_3, followed by the same reduction once more, which is the identity on x and y.
ghost use Rattle.std.specs.Prelude.{◌≡◌, [], ◌∷◌, IfOk};
ghost use Rattle.fp_field.specs.declared.prime.Prime.TheVariants.{Three};

use crate::answers::{ONE, TWO, has};
use crate::tiny::{Added, Tiny, U, V, X, Y};
use chain_core::Chain;
use fp_field::Prime;
use std::alloc::{AllocError, Global};
use twice_perturbed::{First, NoTwist, Twice, twice_d, twice_f, twice_g, twice_h};

/// More terms than each series has.
const DEGREE: u32 = 1;

/// The chain of u.
fn chain_of_u(alloc: Global) -> Result<Chain<u32>, AllocError>
    ensures prime { IfOk result (λ c. c.prime ≡ Three) }
    ensures terms { IfOk result (λ c. c.terms ≡ (1, 1) ∷ []) }
{
    let mut chain = Chain::new(alloc, Prime::Three);
    chain.add_term(U, ONE)?;
    Ok(chain)
}

/// The first perturbation has f(u) = -x, and the second reduction leaves x.
fn projection(alloc: Global) -> Result<Chain<u32>, AllocError> {
    let first = First {
        of: &Tiny,
        twist: &Added,
    };
    let whole = Twice {
        first: &first,
        second: &Tiny,
    };
    twice_f(alloc, &whole, &mut (), DEGREE, &chain_of_u(alloc)?)
}

/// The difference of y is -x, on which h is 0, so that y is lifted to y - v, as by the first perturbation alone.
fn lift(alloc: Global) -> Result<Chain<u32>, AllocError> {
    let first = First {
        of: &Tiny,
        twist: &Added,
    };
    let whole = Twice {
        first: &first,
        second: &Tiny,
    };
    twice_g(alloc, &whole, &mut (), DEGREE, &Y)
}

/// P h of u is v, and h of the second reduction is 0 on f S of u, which is -x.
fn homotopy(alloc: Global) -> Result<Chain<u32>, AllocError> {
    let first = First {
        of: &Tiny,
        twist: &Added,
    };
    let whole = Twice {
        first: &first,
        second: &Tiny,
    };
    twice_h(alloc, &whole, &mut (), DEGREE, &chain_of_u(alloc)?)
}

/// The difference of y is -x, and f leaves x.
fn small_differential(alloc: Global) -> Result<Chain<u32>, AllocError> {
    let first = First {
        of: &Tiny,
        twist: &Added,
    };
    let whole = Twice {
        first: &first,
        second: &Tiny,
    };
    twice_d(alloc, &whole, &mut (), DEGREE, &Y)
}

/// With no twist y is lifted to itself.
fn plain_lift(alloc: Global) -> Result<Chain<u32>, AllocError> {
    let first = First {
        of: &Tiny,
        twist: &NoTwist { p: Prime::Three },
    };
    let whole = Twice {
        first: &first,
        second: &Tiny,
    };
    twice_g(alloc, &whole, &mut (), DEGREE, &Y)
}

#[test]
fn the_maps_of_two_perturbations(rt: HostRuntime) {
    assert!(rt; has(projection(rt.alloc()), &[(X, TWO)]));
    assert!(rt; has(lift(rt.alloc()), &[(Y, ONE), (V, TWO)]));
    assert!(rt; has(homotopy(rt.alloc()), &[(V, ONE)]));
    assert!(rt; has(small_differential(rt.alloc()), &[(X, TWO)]));
    assert!(rt; has(plain_lift(rt.alloc()), &[(Y, ONE)]));
}
