// Simplices of K(Z,1) as lists of integers.
ghost use Rattle.std.specs.Prelude.{◌≡◌, ◌≤◌, ◌^◌, length, nat_abs, IfOk};
ghost use Rattle.values.specs.Sizes.{greatest};
ghost use Rattle.kz1_group.specs.Summable.{IsSummable};

use cells::{Cell, IntList, Simplex};
use kz1_group::{
    integers_normal_forms, ints_face, ints_inv, ints_mul, ints_norm, ints_simplex_face,
};
use seqs::new_seq;
use std::alloc::{AllocError, Global};

// A list of integers.
fn list(alloc: Global, items: &[i64]) -> Result<IntList, AllocError>
    ensures { IfOk result (λ list. list ≡ items.now) }
{
    let mut list = new_seq(alloc);
    for a in items {
        list.push(*a)?;
    }
    Ok(list)
}

fn lists(answer: Result<IntList, AllocError>, wanted: &[i64]) -> bool {
    match answer {
        Ok(list) => list.as_slice() == wanted,
        Err(_) => false,
    }
}

fn face(alloc: Global, i: u32, items: &[i64]) -> Result<IntList, AllocError>
    requires some { 1 ≤ length items.now }
    requires index { i ≤ length items.now }
    requires summable { IsSummable items.now }
{
    let list = list(alloc, items)?;
    ints_face(alloc, i, &list)
}

#[test]
fn faces_drop_or_add(rt: HostRuntime) {
    assert!(rt; lists(face(rt.alloc(), 1, &[2, 3]), &[5]));
    assert!(rt; lists(face(rt.alloc(), 0, &[2, -3, 4]), &[-3, 4]));
    assert!(rt; lists(face(rt.alloc(), 2, &[2, -3, 4]), &[2, 1]));
    assert!(rt; lists(face(rt.alloc(), 3, &[2, -3, 4]), &[2, -3]));
}

fn product(alloc: Global, left: &[i64], right: &[i64]) -> Result<IntList, AllocError>
    requires lengths { length left.now ≡ length right.now }
    requires left { IsSummable left.now }
    requires right { IsSummable right.now }
{
    let left = list(alloc, left)?;
    let right = list(alloc, right)?;
    ints_mul(alloc, &left, &right)
}

fn inverse(alloc: Global, items: &[i64]) -> Result<IntList, AllocError>
    requires { IsSummable items.now }
{
    let list = list(alloc, items)?;
    ints_inv(alloc, &list)
}

#[test]
fn products_and_inverses_go_place_by_place(rt: HostRuntime) {
    assert!(rt; lists(product(rt.alloc(), &[2], &[3]), &[5]));
    assert!(rt; lists(product(rt.alloc(), &[-7, 4], &[7, -5]), &[0, -1]));
    assert!(rt; lists(inverse(rt.alloc(), &[2]), &[-2]));
    assert!(rt; lists(inverse(rt.alloc(), &[0, -9]), &[0, 9]));
}

// Whether a simplex came with this mask and a cell of these integers.
fn is_form(answer: Result<Simplex, AllocError>, mask: u64, items: &[i64]) -> bool {
    match answer {
        Ok(x) => is_simplex(&x, mask, items),
        Err(_) => false,
    }
}

fn is_simplex(x: &Simplex, mask: u64, items: &[i64]) -> bool {
    match &x.cell {
        Cell::Ints(list) => x.degens.mask == mask && list.as_slice() == items,
        _ => false,
    }
}

fn norm(alloc: Global, items: &[i64]) -> Result<Simplex, AllocError>
    requires { length items.now ≤ 32 }
{
    let list = list(alloc, items)?;
    ints_norm(alloc, &list)
}

#[test]
fn zeros_are_degeneracies(rt: HostRuntime) {
    assert!(rt; is_form(norm(rt.alloc(), &[0, 3]), 1, &[3]));
    assert!(rt; is_form(norm(rt.alloc(), &[0, -2, 0, 5, 0]), 0b10101, &[-2, 5]));
}

// The face d_i of the simplex of a list of three integers.
fn face_of_three(alloc: Global, i: u32, items: &[i64; 3]) -> Result<Simplex, AllocError>
    requires index { i ≤ 3 }
    requires integers { greatest nat_abs items.now ≤ 2 ^ 40 }
{
    integers_normal_forms();
    let x = ints_norm(alloc, &list(alloc, items)?)?;
    ints_simplex_face(alloc, i, &x)
}

#[test]
fn faces_are_in_normal_form(rt: HostRuntime) {
    assert!(rt; is_form(face_of_three(rt.alloc(), 0, &[0, 2, 3]), 0, &[2, 3]));
    assert!(rt; is_form(face_of_three(rt.alloc(), 2, &[0, 2, 3]), 1, &[5]));
    assert!(rt; is_form(face_of_three(rt.alloc(), 2, &[4, -6, 6]), 0b10, &[4]));
}
