// The homotopy of a tensor from those of its parts.
ghost use Rattle.std.specs.Prelude.{◌≡◌, ◌<◌, ◌++◌, IfOk};
ghost use Rattle.std.specs.declared.cmp.Ordering.TheVariants.{Equal};
ghost use Rattle.fp_field.specs.Field.{number, sign, SameMod};
ghost use Rattle.fp_field.specs.Chains.{scale};
ghost use Rattle.fp_field.specs.Normal.{normal};
ghost use Rattle.fp_field.specs.Reduction.{one};
ghost use Rattle.tensor_red.specs.Products.{product_in};
ghost use Rattle.tensor_red.specs.Tensors.{tensors};

use chain_core::Chain;
use fp_field::{Fp, Prime, value};
use reduct_laws::sum_of;
use std::alloc::{AllocError, Global};
use tensor_red::{Tensor, product_of};

/// The chain of one key with the coefficient 1.
fn single<K: Ord + Clone + Drop>(alloc: Global, p: Prime, k: &K) -> Result<Chain<K>, AllocError>
    requires clones { (x y : K) → K.is_clone x y → y ≡ x }
    ensures prime { IfOk result (λ c. c.prime ≡ p) }
    ensures terms { IfOk result (λ c. c.terms ≡ normal K.cmp (number p) (one k.now)) }
{
    let mut chain = Chain::new(alloc, p);
    chain.add_term(k.clone()?, Fp { value: 1 })?;
    Ok(chain)
}

/// (-1)^degree in F_p.
fn sign_of(p: Prime, degree: u32) -> Fp
    ensures element { result.value < number p }
    ensures value { SameMod (number p) result.value (sign (number p) degree) }
{
    if degree % 2 == 0 {
        Fp { value: 1 }
    } else {
        Fp {
            value: value(p) - 1,
        }
    }
}

/// The first chain, and the second times (-1)^degree.
fn signed_sum<K: Ord + Drop>(
    alloc: Global,
    degree: u32,
    first: Chain<K>,
    second: Chain<K>,
) -> Result<Chain<K>, AllocError>
    requires prime { second.prime ≡ first.prime }
    requires one_key { (x y : K) → K.cmp x y ≡ Equal → x ≡ y }
    ensures prime { IfOk result (λ c. c.prime ≡ first.prime) }
    ensures sum { IfOk result (λ c. c.terms ≡ normal K.cmp (number first.prime) (first.terms ++ scale (sign (number first.prime) degree) second.terms)) }
{
    let mut signed = second;
    signed.scale(sign_of(first.prime(), degree));
    sum_of(alloc, first, signed)
}

/// The homotopy of a tensor of which the left part has this degree and the right part is y: from the homotopy of the left part, g f of it,
/// and the homotopy of y.
pub fn homotopy<X: Ord + Clone + Drop, Y: Ord + Clone + Drop>(
    alloc: Global,
    degree: u32,
    y: &Y,
    own: Chain<X>,
    back: Chain<X>,
    other: Chain<Y>,
) -> Result<Chain<Tensor<X, Y>>, AllocError>
    requires prime { back.prime ≡ own.prime }
    requires other_prime { other.prime ≡ own.prime }
    requires left_clones { (x y : X) → X.is_clone x y → y ≡ x }
    requires right_clones { (x y : Y) → Y.is_clone x y → y ≡ x }
    requires left_one_key { (x y : X) → X.cmp x y ≡ Equal → x ≡ y }
    requires right_one_key { (x y : Y) → Y.cmp x y ≡ Equal → x ≡ y }
    ensures prime { IfOk result (λ c. c.prime ≡ own.prime) }
    ensures sum { IfOk result (λ c. c.terms ≡ normal ⟦<Tensor<X, Y> as Ord>⟧.cmp (number own.prime) (product_in tensors own.terms (one y.now) ++ scale (sign (number own.prime) degree) (product_in tensors back.terms other.terms))) }
{
    let p = own.prime();
    let first = product_of(alloc, own, &single(alloc, p, y)?)?;
    let second = product_of(alloc, back, &other)?;
    signed_sum(alloc, degree, first, second)
}
