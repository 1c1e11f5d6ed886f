// Products and inverses of lists of integers.
ghost use Rattle.std.specs.Prelude.{◌≡◌, length, map, neg_ℤ, IfOk};
ghost use Rattle.spaces.specs.Nerves.{integers, nerve_times};
ghost use Rattle.kz1_group.specs.Summable.{IsSummable};

use cells::IntList;
use seqs::new_seq;
use std::alloc::{AllocError, Global};

/// The product of two simplices of one degree of K(Z,1), as lists of integers: the lists are added
/// place by place (May, Simplicial Objects, chapter IV, 21). Magnitudes are below 2^62.
pub fn ints_mul(alloc: Global, x: &IntList, y: &IntList) -> Result<IntList, AllocError>
    requires lengths { length x.now ≡ length y.now }
    requires left { IsSummable x.now }
    requires right { IsSummable y.now }
    ensures { IfOk result (λ product. product ≡ nerve_times integers x.now y.now) }
{
    let left = x.as_slice();
    let right = y.as_slice();
    let mut product = new_seq(alloc);
    for i in 0..left.len() {
        product.push(left[i] + right[i])?;
    }
    Ok(product)
}

/// The inverse of a simplex of K(Z,1), as a list of integers: each is negated. Magnitudes are below
/// 2^62.
pub fn ints_inv(alloc: Global, x: &IntList) -> Result<IntList, AllocError>
    requires { IsSummable x.now }
    ensures { IfOk result (λ inverse. inverse ≡ map integers.negative x.now) }
{
    let mut inverse = new_seq(alloc);
    for a in x.as_slice() {
        inverse.push(-*a)?;
    }
    Ok(inverse)
}
