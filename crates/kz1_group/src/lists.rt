// Faces and normal forms of lists of integers.
ghost use Rattle.std.specs.Prelude.{◌≡◌, ◌≤◌, ◌++◌, length, nat_abs, IfOk, OnOk};
ghost use Rattle.spaces.specs.Nerves.{integers, nerve_face};
ghost use Rattle.spaces.specs.Spaces.{kz1};
ghost use Rattle.term_lang.specs.Belongs.{IsSimplex};
ghost use Rattle.term_lang.specs.Forms.{form};
ghost use Rattle.values.specs.Sizes.{greatest};
ghost use Rattle.oracle_iface.specs.CodeSizes.{cell_integer};
ghost use Rattle.kz1_group.specs.Summable.{IsSummable};

use cells::{Cell, IntList, Simplex};
use seqs::new_seq;
use simp_ops::Degens;
use std::alloc::{AllocError, Global};

/// The face d_i of a simplex of K(Z,1), as a list of at least one integer, with i at most their
/// number n: d_0 drops the first integer, d_n the last, and d_i adds the i-th and the next (May,
/// Simplicial Objects, chapter IV, 21). Magnitudes are below 2^62.
pub fn ints_face(alloc: Global, i: u32, x: &IntList) -> Result<IntList, AllocError>
    requires some { 1 ≤ length x.now }
    requires index { i ≤ length x.now }
    requires summable { IsSummable x.now }
    ensures { IfOk result (λ y. y ≡ nerve_face integers i x.now) }
{
    let items = x.as_slice();
    let i = i as usize;
    let mut face = new_seq(alloc);
    if i == 0 {
        put(&mut face, &items[1..])?;
        return Ok(face);
    }
    put(&mut face, &items[..i - 1])?;
    if i < items.len() {
        face.push(items[i - 1] + items[i])?;
        put(&mut face, &items[i + 1..])?;
    }
    Ok(face)
}

// Puts integers at the end of a list.
pub(crate) fn put(list: &mut IntList, items: &[i64]) -> Result<(), AllocError>
    ensures { OnOk result (list.new ≡ list.old ++ items.now) }
{
    for a in items {
        list.push(*a)?;
    }
    Ok(())
}

/// The normal form of a simplex of K(Z,1), of a list of at most 32 integers: a zero at place j, from
/// 0, is the degeneracy s_j, and the cell has the integers that are left. The greatest magnitude stays.
pub fn ints_norm(alloc: Global, x: &IntList) -> Result<Simplex, AllocError>
    requires { length x.now ≤ 32 }
    ensures form { IfOk result (λ y. form y kz1 ≡ x.now) }
    ensures simplex { IfOk result (IsSimplex kz1 (length x.now)) }
    ensures integers { IfOk result (λ y. cell_integer y.cell ≡ greatest nat_abs x.now) }
{
    let items = x.as_slice();
    let mut mask = 0;
    let mut cell = new_seq(alloc);
    for i in 0..items.len() {
        let a = items[i];
        if a == 0 {
            mask |= 1 << i;
        } else {
            cell.push(a)?;
        }
    }
    Ok(Simplex {
        degens: Degens { mask },
        cell: Cell::Ints(cell),
    })
}
