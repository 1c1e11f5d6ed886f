// The faces of the simplices of a circle bundle.
ghost use Rattle.std.specs.Prelude.{◌≡◌, ◌-◌, ◌^◌, ◌≤◌, IfOk};
ghost use Rattle.spaces.specs.Allowed.{IsAllowed};
ghost use Rattle.spaces.specs.Cocycles.{cocycle_twisting};
ghost use Rattle.spaces.specs.Nerves.{integers, nerve_face, nerve_times};
ghost use Rattle.spaces.specs.Spaces.{table, kz1, bundle, set_of};
ghost use Rattle.cells.specs.Dim.{degree_of};
ghost use Rattle.term_lang.specs.Belongs.{IsSimplex};
ghost use Rattle.term_lang.specs.Forms.{form};
ghost use Rattle.term_lang.specs.Rows.{rows_of};
ghost use Rattle.oracle_iface.specs.CodeSizes.{cell_integer};

use cells::{Cell, IntList, Simplex, degree};
use kz1_group::{ints_face, ints_mul, ints_norm, ints_simplex_face};
use normal_forms::{paired, parts_of};
use seqs::new_seq;
use std::alloc::{AllocError, Global};
use term_lang::{Table, table_face};
use twist_maps::cocycle_tau;

/// The face d_i of a simplex (b, f) of the circle bundle of a cocycle on a table, of degree 1 to 32 and
/// with integers of magnitude at most 2^40: (d_i b, d_i f), but for d_0, which is (d_0 b, t(b) d_0 f), where t
/// is the twisting operator of the cocycle (May, Simplicial Objects, chapter IV, 18).
pub(crate) fn bundle_face(
    alloc: Global,
    base: &Table,
    values: &IntList,
    i: u32,
    x: &Simplex,
) -> Result<Simplex, AllocError>
    requires allowed { IsAllowed (bundle (rows_of base.now) values.now) }
    requires simplex { IsSimplex (bundle (rows_of base.now) values.now) (degree_of x.now) x.now }
    requires positive { 1 ≤ degree_of x.now }
    requires most { degree_of x.now ≤ 32 }
    requires index { i ≤ degree_of x.now }
    requires integers { cell_integer x.now.cell ≤ 2 ^ 40 }
    ensures form { let X = bundle (rows_of base.now) values.now in IfOk result (λ y. form y X ≡ (set_of X).face i (form x.now X)) }
    ensures simplex { IfOk result (IsSimplex (bundle (rows_of base.now) values.now) (degree_of x.now - 1)) }
{
    let (b, f) = parts_of(alloc, x)?;
    let fibre = fibre_face(alloc, base, values, i, &b, &f)?;
    Ok(paired(alloc, table_face(base, i, &b), fibre)?)
}

// What the face d_i of (b, f) has in the fibre.
fn fibre_face(
    alloc: Global,
    base: &Table,
    values: &IntList,
    i: u32,
    b: &Simplex,
    f: &Simplex,
) -> Result<Simplex, AllocError>
    requires allowed { IsAllowed (bundle (rows_of base.now) values.now) }
    requires base { IsSimplex (table (rows_of base.now)) (degree_of b.now) b.now }
    requires fibre { IsSimplex kz1 (degree_of b.now) f.now }
    requires positive { 1 ≤ degree_of b.now }
    requires most { degree_of b.now ≤ 32 }
    requires index { i ≤ degree_of b.now }
    requires integers { cell_integer f.now.cell ≤ 2 ^ 40 }
    ensures form { let t = rows_of base.now in IfOk result (λ y. form y kz1 ≡ ((set_of (bundle t values.now)).face i (form b.now (table t), form f.now kz1)).1) }
    ensures simplex { IfOk result (IsSimplex kz1 (degree_of b.now - 1)) }
{
    if i == 0 {
        return Ok(turned_face(alloc, base, values, b, f)?);
    }
    Ok(ints_simplex_face(alloc, i, f)?)
}

// The product t(b) d_0 f.
fn turned_face(
    alloc: Global,
    base: &Table,
    values: &IntList,
    b: &Simplex,
    f: &Simplex,
) -> Result<Simplex, AllocError>
    requires allowed { IsAllowed (bundle (rows_of base.now) values.now) }
    requires base { IsSimplex (table (rows_of base.now)) (degree_of b.now) b.now }
    requires fibre { IsSimplex kz1 (degree_of b.now) f.now }
    requires positive { 1 ≤ degree_of b.now }
    requires most { degree_of b.now ≤ 32 }
    requires integers { cell_integer f.now.cell ≤ 2 ^ 40 }
    ensures form { let t = rows_of base.now in IfOk result (λ y. form y kz1 ≡ nerve_times integers (cocycle_twisting integers t values.now (form b.now (table t))) (nerve_face integers 0 (form f.now kz1))) }
    ensures simplex { IfOk result (IsSimplex kz1 (degree_of b.now - 1)) }
{
    let list = ints_of(alloc, degree(b), f)?;
    let rest = ints_face(alloc, 0, &list)?;
    let tau = cocycle_tau(alloc, base, values, b)?;
    let turned = ints_mul(alloc, &tau, &rest)?;
    Ok(ints_norm(alloc, &turned)?)
}

// The list of n integers that a simplex of K(Z,1) of degree n stands for: those of its cell in order, with a zero at each place of its mask.
fn ints_of(alloc: Global, n: u32, x: &Simplex) -> Result<IntList, AllocError>
    requires simplex { IsSimplex kz1 n x.now }
    requires most { n ≤ 32 }
    ensures { IfOk result (λ list. list ≡ form x.now kz1) }
{
    let cell = match &x.cell {
        Cell::Ints(list) => list,
        _ => unreachable!(),
    };
    let items = cell.as_slice();
    let mut list = new_seq(alloc);
    let mut k = 0;
    for i in 0..n {
        if x.degens.has(i) {
            list.push(0)?;
        } else {
            list.push(items[k])?;
            k += 1;
        }
    }
    Ok(list)
}
