// The simplex of a space that a text means.
ghost use Rattle.std.specs.Prelude.{◌≡◌, ◌≤◌, ℤ, List, ◌↔◌, length, IsTrue, IsSome, IfSome, IfOk, IfErr};
ghost use Rattle.simp_ops.specs.Bits.{mask_word};
ghost use Rattle.spaces.specs.Allowed.{IsAllowed};
ghost use Rattle.spaces.specs.Spaces.{table, product, suspension, kz1, bundle};
ghost use Rattle.term_lang.specs.Rows.{rows_of};
ghost use Rattle.term_lang.specs.SpaceOf.{space_of};
ghost use Rattle.script_lang.specs.Meaning.{is_prefix, meaning};
ghost use Rattle.normal_forms.specs.Built.{IsBuilt};
ghost use Rattle.script_lang.specs.Resolved.{IsRead, IsFault, IsFound, body_meaning};

use crate::forms::{bare, joined, listed, prefixed, raised};
use crate::named::{sphere_cell, table_cell};
use crate::simplices::{BodyText, SimplexText};
use cells::{Cell, Simplex};
use oracle_iface::{Kind, Size, integer_of, letters_of, past};
use simp_ops::Degens;
use std::alloc::{AllocError, Global};
use term_lang::{Table, Term};
use thiserror::Error;

/// Why a text gives no simplex of a space.
#[derive(Clone, Copy, Debug, PartialEq, Eq, Error)]
pub enum ResolveFault {
    /// It means no simplex of the space in the degree.
    #[error("NoSimplex")]
    NoSimplex,
    /// It means one that is past a limit: the first such kind, and the size.
    #[error("Over")]
    Over(Kind, u64),
    /// Want of memory.
    #[error("Memory")]
    Memory,
}

/// The simplex in normal form that a text means in a space and a degree of at most 16, for a construction
/// that is built. `NoSimplex` exactly where it means none: where its prefix is not strictly decreasing from
/// an index below the degree, or its body means no simplex in the degree that is left. `Over` exactly where
/// it means one whose normal form is past a limit on letters or integers, with the first such kind and the
/// size. `<x,y>` means a simplex of a product where x means one of the left part and y one of the right part,
/// of a circle bundle where x means one of the base, a table, and y one of K(Z,1), each in the degree of the
/// pair: its normal form has the degeneracies that are common to both before a pair without common ones
/// (Kenzo documentation, 1999, on geometric simplices; May, Simplicial Objects, chapters I and IV).
pub fn resolve(alloc: Global, t: &Term, n: u32, text: &SimplexText) -> Result<Simplex, ResolveFault>
    requires allowed { IsAllowed (space_of t.now) }
    requires built { IsBuilt (space_of t.now) }
    requires degree { n ≤ 16 }
    ensures simplex { IfOk result (λ x. IsRead text.now (space_of t.now) n x) }
    ensures fault { IfErr result (λ f. IsFault text.now (space_of t.now) n f) }
{
    let Ok(found) = simplex_of(alloc, t, n, text) else {
        return Err(ResolveFault::Memory);
    };
    let Some(simplex) = found else {
        return Err(ResolveFault::NoSimplex);
    };
    let size = Size {
        letters: letters_of(&simplex.cell),
        integer: integer_of(&simplex.cell),
        terms: 0,
    };
    match past(&size) {
        Some((kind, most)) => Err(ResolveFault::Over(kind, most)),
        None => Ok(simplex),
    }
}

// The simplex of degree n that a text means, if it means one: its prefix before what its body means.
#[cycle(found)]
fn simplex_of(
    alloc: Global,
    t: &Term,
    n: u32,
    text: &SimplexText,
) -> Result<Option<Simplex>, AllocError>
    requires allowed { IsAllowed (space_of t.now) }
    requires built { IsBuilt (space_of t.now) }
    requires degree { n ≤ 16 }
    ensures { IfOk result (λ x. IsFound (space_of t.now) n (meaning text.now (space_of t.now) n) x) }
{
    let indices = text.degens.as_slice();
    let Some(degens) = prefix_of(n, indices) else {
        return Ok(None);
    };
    let lower = n - indices.len() as u32;
    Ok(prefixed(degens, body_of(alloc, t, lower, &text.body)?))
}

// The simplex of degree n that a body means, if it means one.
#[cycle(found)]
fn body_of(alloc: Global, t: &Term, n: u32, body: &BodyText) -> Result<Option<Simplex>, AllocError>
    requires allowed { IsAllowed (space_of t.now) }
    requires built { IsBuilt (space_of t.now) }
    requires degree { n ≤ 16 }
    ensures { IfOk result (λ x. IsFound (space_of t.now) n (body_meaning body.now (space_of t.now) n) x) }
{
    match t {
        Term::Table(rows) => Ok(bare(table_cell(rows, n, body))),
        Term::Sphere(m) => Ok(bare(sphere_cell(alloc, *m, n, body)?)),
        Term::Product(left, right) => multiplied(alloc, left.get(), right.get(), n, body),
        Term::Suspension(part) => suspended(alloc, part.get(), n, body),
        Term::KZ1 => listed(alloc, n, body),
        Term::Bundle(rows, _) => bundled(alloc, rows, n, body),
        _ => unreachable!(),
    }
}

// In a suspension of a part, `*` means the base in degree 0, and `^x` is Up of what x means in the part,
// one degree below.
#[cycle(found)]
fn suspended(
    alloc: Global,
    part: &Term,
    n: u32,
    body: &BodyText,
) -> Result<Option<Simplex>, AllocError>
    requires allowed { IsAllowed (suspension (space_of part.now)) }
    requires built { IsBuilt (space_of part.now) }
    requires degree { n ≤ 16 }
    ensures { IfOk result (λ x. IsFound (suspension (space_of part.now)) n (body_meaning body.now (suspension (space_of part.now)) n) x) }
{
    match body {
        BodyText::Star => {
            if n == 0 {
                Ok(bare(Some(Cell::Base)))
            } else {
                Ok(None)
            }
        }
        BodyText::Up(x) => {
            if n == 0 {
                return Ok(None);
            }
            match simplex_of(alloc, part, n - 1, x.get())? {
                Some(y) => Ok(Some(raised(alloc, y)?)),
                None => Ok(None),
            }
        }
        _ => Ok(None),
    }
}

// In a product `<x,y>` means the pair of what x means in the left part and y in the right one, both in the
// degree of the pair.
#[cycle(found)]
fn multiplied(
    alloc: Global,
    left: &Term,
    right: &Term,
    n: u32,
    body: &BodyText,
) -> Result<Option<Simplex>, AllocError>
    requires allowed { IsAllowed (product (space_of left.now) (space_of right.now)) }
    requires built { IsBuilt (product (space_of left.now) (space_of right.now)) }
    requires degree { n ≤ 16 }
    ensures { IfOk result (λ x. IsFound (product (space_of left.now) (space_of right.now)) n (body_meaning body.now (product (space_of left.now) (space_of right.now)) n) x) }
{
    match body {
        BodyText::Pair(x, y) => {
            let x = simplex_of(alloc, left, n, x.get())?;
            let y = simplex_of(alloc, right, n, y.get())?;
            joined(alloc, x, y)
        }
        _ => Ok(None),
    }
}

// In a circle bundle over a table, whatever its cocycle, `<x,y>` means the pair of what x means in the table
// and y in K(Z,1), both in the degree of the pair.
fn bundled(
    alloc: Global,
    rows: &Table,
    n: u32,
    body: &BodyText,
) -> Result<Option<Simplex>, AllocError>
    requires { n ≤ 16 }
    ensures { IfOk result (λ x. (c : List ℤ) → IsAllowed (bundle (rows_of rows.now) c) → IsFound (bundle (rows_of rows.now) c) n (body_meaning body.now (bundle (rows_of rows.now) c) n) x) }
{
    match body {
        BodyText::Pair(x, y) => {
            let x = text_in_table(rows, n, x.get());
            let y = text_in_integers(alloc, n, y.get())?;
            joined(alloc, x, y)
        }
        _ => Ok(None),
    }
}

// The simplex of degree n that a text means in a table, if it means one.
fn text_in_table(t: &Table, n: u32, text: &SimplexText) -> Option<Simplex>
    requires { n ≤ 16 }
    ensures { IsFound (table (rows_of t.now)) n (meaning text.now (table (rows_of t.now)) n) result }
{
    let _rows = t.rows();
    let indices = text.degens.as_slice();
    let Some(degens) = prefix_of(n, indices) else {
        return None;
    };
    let lower = n - indices.len() as u32;
    prefixed(degens, bare(table_cell(t, lower, &text.body)))
}

// The simplex of degree n that a text means in K(Z,1), if it means one.
fn text_in_integers(
    alloc: Global,
    n: u32,
    text: &SimplexText,
) -> Result<Option<Simplex>, AllocError>
    requires { n ≤ 16 }
    ensures { IfOk result (λ x. IsFound kz1 n (meaning text.now kz1 n) x) }
{
    let indices = text.degens.as_slice();
    let Some(degens) = prefix_of(n, indices) else {
        return Ok(None);
    };
    let lower = n - indices.len() as u32;
    Ok(prefixed(degens, listed(alloc, lower, &text.body)?))
}

// The word of a prefix for the degree n, or None exactly where the indices do not decrease strictly or
// one is not below n.
fn prefix_of(n: u32, indices: &[u64]) -> Option<Degens>
    requires { n ≤ 16 }
    ensures some { IsSome result ↔ IsTrue (is_prefix n indices.now) }
    ensures word { IfSome result (λ d. mask_word d.mask ≡ indices.now) }
    ensures short { IfSome result (λ _. length indices.now ≤ n) }
{
    let mut mask = 0;
    let mut bound = u64::from(n);
    for j in indices {
        if *j >= bound {
            return None;
        }
        mask |= 1 << *j;
        bound = *j;
    }
    Some(Degens { mask })
}
