ghost use Rattle.std.specs.Prelude.{◌≡◌};
ghost use Rattle.fp_field.specs.declared.prime.Prime.TheVariants.{Three};

use crate::answers::{ONE, TWO, crosses, has};
use crate::edge::{A, B, Edge, whole};
use reduct_laws::{
    Composed, Identity, Reduction, Shifted, Side, Summed, composed_meets, identity_meets,
    shifted_down_meets, shifted_up_meets, summed_meets,
};
use tensor_red::{Tensor, TensorReduction, tensor_meets, tensor_reduction};

#[test]
fn the_identity(rt: HostRuntime) {
    let whole = whole();
    assert!(rt; has(whole.f(rt.alloc(), &mut (), &A), &[(A, ONE)]));
    assert!(rt; has(whole.g(rt.alloc(), &mut (), &A), &[(A, ONE)]));
    assert!(rt; has(whole.h(rt.alloc(), &mut (), &A), &[]));
    assert!(rt; has(whole.big_d(rt.alloc(), &mut (), &A), &[(B, ONE)]));
    assert!(rt; has(whole.small_d(rt.alloc(), &mut (), &A), &[(B, ONE)]));
}

#[test]
fn a_shift_up_turns_the_sign(rt: HostRuntime) {
    let shift = Shifted {
        of: whole(),
        up: true,
    };
    assert!(rt; has(shift.small_d(rt.alloc(), &mut (), &A), &[(B, TWO)]));
}

#[test]
fn a_shift_down_ends_at_the_edge(rt: HostRuntime) {
    let shift = Shifted {
        of: whole(),
        up: false,
    };
    assert!(rt; has(shift.big_d(rt.alloc(), &mut (), &A), &[]));
    assert!(rt; has(shift.f(rt.alloc(), &mut (), &A), &[(A, ONE)]));
    crosses(&shift);
}

#[test]
fn a_sum_keeps_the_side(rt: HostRuntime) {
    let sum = Summed {
        left: whole(),
        right: whole(),
    };
    assert!(rt;
        has(
            sum.f(rt.alloc(), &mut (), &Side::Left(A)),
            &[(Side::Left(A), ONE)]
        )
    );
    assert!(rt;
        has(
            sum.big_d(rt.alloc(), &mut (), &Side::Right(A)),
            &[(Side::Right(B), ONE)]
        )
    );
    crosses(&sum);
}

#[test]
fn the_identity_twice(rt: HostRuntime) {
    let twice = Composed {
        first: whole(),
        second: whole(),
    };
    assert!(rt; has(twice.f(rt.alloc(), &mut (), &A), &[(A, ONE)]));
    assert!(rt; has(twice.h(rt.alloc(), &mut (), &A), &[]));
    crosses(&twice);
}

fn tensor(left: u32, right: u32) -> Tensor<u32, u32>
    ensures { result ≡ record { left = left; right = right } }
{
    Tensor { left, right }
}

// The tensor product of the identity with itself, on two copies of the edge.
fn square() -> TensorReduction<Identity<Edge>, Identity<Edge>>
    ensures left { result.left.p ≡ Three }
    ensures right { result.right.p ≡ Three }
{
    tensor_reduction(whole(), whole())
}

#[test]
fn a_square(rt: HostRuntime) {
    let square = square();
    let corner = [(tensor(B, A), ONE), (tensor(A, B), TWO)];
    assert!(rt; has(square.big_d(rt.alloc(), &mut (), &tensor(A, A)), &corner));
    assert!(rt;
        has(
            square.f(rt.alloc(), &mut (), &tensor(A, B)),
            &[(tensor(A, B), ONE)]
        )
    );
    assert!(rt; has(square.h(rt.alloc(), &mut (), &tensor(A, A)), &[]));
}

#[test]
fn the_identity_and_its_double_are_reductions() {
    let whole = whole();
    identity_meets::<(), Edge>(&whole);
    let twice = Composed {
        first: whole,
        second: crate::edge::whole(),
    };
    composed_meets::<(), Identity<Edge>, Identity<Edge>>(&twice);
}

#[test]
fn sums_and_squares_are_reductions() {
    let sum = Summed {
        left: whole(),
        right: whole(),
    };
    summed_meets::<(), Identity<Edge>, Identity<Edge>>(&sum);
    tensor_meets::<(), Identity<Edge>, Identity<Edge>>(&square());
}

#[test]
fn shifts_are_reductions() {
    let up = Shifted {
        of: whole(),
        up: true,
    };
    shifted_up_meets::<(), Identity<Edge>>(&up);
    let down = Shifted {
        of: whole(),
        up: false,
    };
    shifted_down_meets::<(), Identity<Edge>>(&down);
}
