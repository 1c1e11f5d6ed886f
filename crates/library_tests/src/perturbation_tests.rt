// The worked perturbation over F_3, and the circle bundle of value 2 over the 2-sphere, over F_2 and F_3.
use crate::answers;
use crate::answers::has;
use crate::circle_bundle::{EMPTY, ONE, ONE_ONE, S2, TWO, Twist, VERTEX, tensor_of, tensors_over};
use crate::tiny::{Added, Tiny, U, V, X, Y};
use chain_core::Chain;
use fp_field::Prime;
use perturb::{perturbed_d, perturbed_f, perturbed_g, perturbed_h};
use std::alloc::{AllocError, Global};
use tensor_red::Tensor;

/// More terms than the series has: each lowers the degree in the base, which is at most 2.
const RANK: u64 = 3;

/// The small differential of S2 (x) |, f delta P g: the series is S2 (x) | and a tensor over *, so delta of it is * (x) |2|, whose image
/// under f is 2 (* (x) |1|).
fn small_differential(alloc: Global, p: Prime) -> Result<Chain<Tensor<u32, u32>>, AllocError> {
    perturbed_d(
        alloc,
        &tensors_over(p),
        &Twist { p },
        &mut (),
        RANK,
        &tensor_of(S2, EMPTY),
    )
}

/// The perturbed g of S2 (x) |: the term after it is minus h of * (x) |2|, so * (x) |1|1|, on which delta is 0.
fn lift(alloc: Global, p: Prime) -> Result<Chain<Tensor<u32, u32>>, AllocError> {
    perturbed_g(
        alloc,
        &tensors_over(p),
        &Twist { p },
        &mut (),
        RANK,
        &tensor_of(S2, EMPTY),
    )
}

/// The perturbed f of * (x) |2|: delta is 0 on h of it, so it is f of it, 2 (* (x) |1|).
fn projection(alloc: Global, p: Prime) -> Result<Chain<Tensor<u32, u32>>, AllocError> {
    perturbed_f(
        alloc,
        &tensors_over(p),
        &Twist { p },
        &mut (),
        RANK,
        &tensor_of(VERTEX, TWO),
    )
}

/// The perturbed h of * (x) |2|: h of it, - * (x) |1|1|, on which delta is 0.
fn homotopy(alloc: Global, p: Prime) -> Result<Chain<Tensor<u32, u32>>, AllocError> {
    perturbed_h(
        alloc,
        &tensors_over(p),
        &Twist { p },
        &mut (),
        RANK,
        &tensor_of(VERTEX, TWO),
    )
}

// The coefficients of the comments above, with 2 = 0 and -1 = 1.
#[test]
fn over_two(rt: HostRuntime) {
    let one = answers::ONE;
    let p = Prime::Two;
    let lifted = [
        (tensor_of(VERTEX, ONE_ONE), one),
        (tensor_of(S2, EMPTY), one),
    ];
    assert!(rt; has(small_differential(rt.alloc(), p), &[]));
    assert!(rt; has(lift(rt.alloc(), p), &lifted));
    assert!(rt; has(projection(rt.alloc(), p), &[]));
    assert!(rt;
        has(
            homotopy(rt.alloc(), p),
            &[(tensor_of(VERTEX, ONE_ONE), one)]
        )
    );
}

// The coefficients of the comments above, with -1 = 2.
#[test]
fn over_three(rt: HostRuntime) {
    let one = answers::ONE;
    let two = answers::TWO;
    let p = Prime::Three;
    let lifted = [
        (tensor_of(VERTEX, ONE_ONE), one),
        (tensor_of(S2, EMPTY), one),
    ];
    assert!(rt;
        has(
            small_differential(rt.alloc(), p),
            &[(tensor_of(VERTEX, ONE), two)]
        )
    );
    assert!(rt; has(lift(rt.alloc(), p), &lifted));
    assert!(rt; has(projection(rt.alloc(), p), &[(tensor_of(VERTEX, ONE), two)]));
    assert!(rt;
        has(
            homotopy(rt.alloc(), p),
            &[(tensor_of(VERTEX, ONE_ONE), two)]
        )
    );
}

// d(y) = -x, f(u) = -x, g(y) = y - v and h(u) = v.
#[test]
fn the_worked_maps(rt: HostRuntime) {
    let one = answers::ONE;
    let two = answers::TWO;
    let d = perturbed_d(rt.alloc(), &Tiny, &Added, &mut (), 2, &Y);
    assert!(rt; has(d, &[(X, two)]));
    let f = perturbed_f(rt.alloc(), &Tiny, &Added, &mut (), 2, &U);
    assert!(rt; has(f, &[(X, two)]));
    let g = perturbed_g(rt.alloc(), &Tiny, &Added, &mut (), 2, &Y);
    assert!(rt; has(g, &[(Y, one), (V, two)]));
    let h = perturbed_h(rt.alloc(), &Tiny, &Added, &mut (), 2, &U);
    assert!(rt; has(h, &[(V, one)]));
}
