// The twisting operator of a cocycle.
ghost use Rattle.std.specs.Prelude.{◌≡◌, ◌-◌, ◌<◌, ◌≤◌, ℤ, List, All, nat_abs, IfOk};
ghost use Rattle.spaces.specs.Nerves.{integers};
ghost use Rattle.spaces.specs.Cocycles.{first_vertices, face_times, at_vertex, cocycle_twisting};
ghost use Rattle.spaces.specs.Spaces.{table};
ghost use Rattle.cells.specs.Dim.{degree_of};
ghost use Rattle.term_lang.specs.Belongs.{IsSimplex};
ghost use Rattle.term_lang.specs.Forms.{form};
ghost use Rattle.term_lang.specs.Rows.{rows_of};
ghost use Rattle.twist_maps.specs.Values.{AreValues};

use crate::values::value_on;
use cells::{IntList, Simplex, copy_simplex, degree};
use seqs::new_seq;
use std::alloc::{AllocError, Global};
use term_lang::{Table, table_face};

/// What a cocycle twists a simplex b of its table by, for b of degree n from 1 to 32: the list of the n - 1
/// integers c(0,1,2), c(0,1,3) - c(0,1,2), c(0,1,4) - c(0,1,3), .., where c(0,1,j) is the value on the face of b
/// on these three vertices, and 0 where that is degenerate. There is one value for each row, at most 100,000 in
/// magnitude (May, Simplicial Objects, chapter IV, 18 and 21).
pub fn cocycle_tau(
    alloc: Global,
    base: &Table,
    values: &IntList,
    b: &Simplex,
) -> Result<IntList, AllocError>
    requires values { AreValues (rows_of base.now) values.now }
    requires simplex { IsSimplex (table (rows_of base.now)) (degree_of b.now) b.now }
    requires positive { 1 ≤ degree_of b.now }
    requires most { degree_of b.now ≤ 32 }
    ensures value { let t = rows_of base.now in IfOk result (λ list. list ≡ cocycle_twisting integers t values.now (form b.now (table t))) }
    ensures small { IfOk result (All (λ a. nat_abs a ≤ 200000)) }
{
    base.rows();
    let n = degree(b);
    let mut list = new_seq(alloc);
    let mut before = 0;
    for j in 2..n + 1 {
        let value = value_at_vertex(alloc, base, values, n, j, b)?;
        list.push(value - before)?;
        before = value;
    }
    Ok(list)
}

// The value c(0,1,j) of a simplex of degree n, for j from 2 to n.
fn value_at_vertex(
    alloc: Global,
    base: &Table,
    values: &IntList,
    n: u32,
    j: u32,
    b: &Simplex,
) -> Result<i64, AllocError>
    requires values { AreValues (rows_of base.now) values.now }
    requires simplex { IsSimplex (table (rows_of base.now)) n b.now }
    requires most { n ≤ 32 }
    requires from { 2 ≤ j }
    requires to { j ≤ n }
    ensures value { let t = rows_of base.now in IfOk result (λ v. v ≡ at_vertex integers t values.now n j (form b.now (table t))) }
    ensures small { IfOk result (λ v. nat_abs v ≤ 100000) }
{
    let front = front_of(base, n, j, copy_simplex(alloc, b)?);
    Ok(value_on(base, values, &first_triangle(base, j, front)))
}

// A simplex of degree n without its vertices past the j-th.
fn front_of(base: &Table, n: u32, j: u32, b: Simplex) -> Simplex
    requires simplex { IsSimplex (table (rows_of base.now)) n b }
    requires most { n ≤ 32 }
    requires to { j ≤ n }
    ensures form { let t = rows_of base.now in (c : List ℤ) → form result (table t) ≡ first_vertices integers t c j (n - j) (form b (table t)) }
    ensures simplex { IsSimplex (table (rows_of base.now)) j result }
{
    base.rows();
    let mut x = b;
    let mut i = n;
    while i > j {
        x = table_face(base, i, &x);
        i -= 1;
    }
    x
}

// The face of a simplex of degree j on its first two vertices and its last one.
fn first_triangle(base: &Table, j: u32, b: Simplex) -> Simplex
    requires simplex { IsSimplex (table (rows_of base.now)) j b }
    requires most { j ≤ 32 }
    requires from { 2 ≤ j }
    ensures form { let t = rows_of base.now in (c : List ℤ) → form result (table t) ≡ face_times integers t c (j - 2) 2 (form b (table t)) }
    ensures simplex { IsSimplex (table (rows_of base.now)) 2 result }
{
    base.rows();
    let mut x = b;
    let mut i = j;
    while i > 2 {
        x = table_face(base, 2, &x);
        i -= 1;
    }
    x
}
