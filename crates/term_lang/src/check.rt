// Which terms name a space, and the first fault of the others.
ghost use Rattle.std.specs.Prelude.{◌≡◌, ◌↔◌, ◌<◌, ◌≤◌, ℕ, false, length, nat_abs, None, IsOk};
ghost use Rattle.std.specs.Option.{option_or};
ghost use Rattle.std.specs.Result.{result_err};
ghost use Rattle.spaces.specs.Allowed.{IsAllowed, IsTable, face_count, space_depth};
ghost use Rattle.spaces.specs.Tables.{row_at};
ghost use Rattle.term_lang.specs.Rows.{rows_of};
ghost use Rattle.term_lang.specs.SpaceOf.{space_of};
ghost use Rattle.term_lang.specs.TermFaults.{sphere_fault, on_face, face_sum, is_bad_row, cocycle_fault, depth_fault, vertex_fault, edge_fault, fault_of};

use crate::faults::TermFault;
use crate::measures::{depth, low, vertices};
use crate::tables::Table;
use crate::terms::Term;
use cells::IntList;

const MOST_DEPTH: u32 = 8;

const MOST_DIMENSION: u32 = 16;

const MOST_MAGNITUDE: u64 = 100_000;

/// There is nothing left to check of a table: its type keeps its form.
fn check_table(table: &Table) -> Result<(), TermFault>
    ensures form { IsTable (rows_of table.now) }
    ensures fault { result_err result ≡ None }
{
    table.rows();
    Ok(())
}

#[tactic(auto, unfolding(crate::specs::TermFaults::sphere_fault))]
fn check_sphere(n: u32) -> Result<(), TermFault>
    ensures { result_err result ≡ sphere_fault n }
{
    if n == 0 || n > MOST_DIMENSION {
        return Err(TermFault::BadSphere(n));
    }
    Ok(())
}

/// The value of a cocycle on a face of the row `r`: 0 where the face is degenerate.
fn value_on_face(base: &Table, values: &IntList, r: usize, i: usize) -> i64
    requires row_in { r < length base.now }
    requires face_in { i < face_count (row_at (rows_of base.now) r).dim }
    requires good { (k : ℕ) → k < r → is_bad_row (rows_of base.now) values.now k ≡ false }
    ensures value { result ≡ on_face (rows_of base.now) values.now r i }
    ensures small { nat_abs result ≤ 100000 }
{
    let face = base.rows().as_slice()[r].faces.as_slice()[i];
    if face.degens.mask != 0 {
        return 0;
    }
    values.as_slice()[face.row as usize]
}

/// The alternating sum over the faces of the row `r`, of dimension 3.
fn sum_on_faces(base: &Table, values: &IntList, r: usize) -> i64
    requires row_in { r < length base.now }
    requires dimension { (row_at (rows_of base.now) r).dim ≡ 3 }
    requires good { (k : ℕ) → k < r → is_bad_row (rows_of base.now) values.now k ≡ false }
    ensures { result ≡ face_sum (rows_of base.now) values.now r }
{
    let front = value_on_face(base, values, r, 0) - value_on_face(base, values, r, 1);
    let back = value_on_face(base, values, r, 2) - value_on_face(base, values, r, 3);
    front + back
}

/// Whether the row `r` is bad, where those before it are not.
fn is_bad(base: &Table, values: &IntList, r: usize) -> bool
    requires row_in { r < length base.now }
    requires good { (k : ℕ) → k < r → is_bad_row (rows_of base.now) values.now k ≡ false }
    ensures { result ≡ is_bad_row (rows_of base.now) values.now r }
{
    if r >= values.len() {
        return true;
    }
    let dim = base.rows().as_slice()[r].dim;
    let value = values.as_slice()[r];
    if value.unsigned_abs() > MOST_MAGNITUDE {
        return true;
    }
    if dim != 2 && value != 0 {
        return true;
    }
    dim == 3 && sum_on_faces(base, values, r) != 0
}

fn check_values(base: &Table, values: &IntList) -> Result<(), TermFault>
    ensures form { IsTable (rows_of base.now) }
    ensures fault { result_err result ≡ cocycle_fault (rows_of base.now) values.now }
{
    let rows = base.rows().len();
    for r in 0..rows {
        if is_bad(base, values, r) {
            return Err(TermFault::BadCocycle(r as u32));
        }
    }
    if values.len() > rows {
        return Err(TermFault::BadCocycle(rows as u32));
    }
    Ok(())
}

#[tactic(auto, unfolding(crate::specs::TermFaults::depth_fault))]
fn check_depth(t: &Term) -> Result<(), TermFault>
    requires { space_depth (space_of t.now) ≤ 9 }
    ensures { result_err result ≡ depth_fault (space_of t.now) }
{
    let depth = depth(t);
    if depth > MOST_DEPTH {
        return Err(TermFault::TooDeep(depth));
    }
    Ok(())
}

#[tactic(auto, unfolding(crate::specs::TermFaults::vertex_fault))]
fn check_vertices(part: &Term) -> Result<(), TermFault>
    requires { IsAllowed (space_of part.now) }
    ensures { result_err result ≡ vertex_fault (space_of part.now) }
{
    let count = vertices(part);
    if count != 1 {
        return Err(TermFault::NotOneVertex(count));
    }
    Ok(())
}

#[tactic(auto, unfolding(crate::specs::TermFaults::edge_fault))]
fn check_edges(part: &Term) -> Result<(), TermFault>
    requires { IsAllowed (space_of part.now) }
    ensures { result_err result ≡ edge_fault (space_of part.now) }
{
    match low(part) {
        Some(1) => Err(TermFault::NotOneReduced(1)),
        _ => Ok(()),
    }
}

fn check_pointed(t: &Term, part: &Term) -> Result<(), TermFault>
    requires depth { space_depth (space_of t.now) ≤ 9 }
    requires allowed { IsAllowed (space_of part.now) }
    ensures { result_err result ≡ option_or (depth_fault (space_of t.now)) (vertex_fault (space_of part.now)) }
{
    check_depth(t)?;
    check_vertices(part)
}

fn check_reduced(t: &Term, part: &Term) -> Result<(), TermFault>
    requires depth { space_depth (space_of t.now) ≤ 9 }
    requires allowed { IsAllowed (space_of part.now) }
    ensures { result_err result ≡ option_or (depth_fault (space_of t.now)) (option_or (vertex_fault (space_of part.now)) (edge_fault (space_of part.now))) }
{
    check_depth(t)?;
    check_vertices(part)?;
    check_edges(part)
}

/// Whether a term names a space, or else its first fault: parts are checked first, from left to
/// right, and at one node the dimension of a sphere or the values of a bundle, then the depth, then
/// the vertices of the part, then its edges.
pub fn check_term(t: &Term) -> Result<(), TermFault>
    ensures allowed { IsOk result ↔ IsAllowed (space_of t.now) }
    ensures fault { result_err result ≡ fault_of (space_of t.now) }
{
    match t {
        Term::Table(table) => check_table(table),
        Term::Sphere(n) => check_sphere(*n),
        Term::Product(a, b) => {
            check_term(a.get())?;
            check_term(b.get())?;
            check_depth(t)
        }
        Term::Suspension(a) => {
            let part = a.get();
            check_term(part)?;
            check_pointed(t, part)
        }
        Term::KZ1 => Ok(()),
        Term::Bundle(base, values) => check_values(base, values),
        Term::Loop(a) => {
            let part = a.get();
            check_term(part)?;
            check_reduced(t, part)
        }
        Term::Path(a) => {
            let part = a.get();
            check_term(part)?;
            check_reduced(t, part)
        }
    }
}
