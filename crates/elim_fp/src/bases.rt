// The basis of a matrix, and coordinates over a basis.
ghost use Rattle.std.specs.Prelude.{◌≡◌, IfOk, IfErr, length};
ghost use Rattle.fp_field.specs.Field.{number};
ghost use Rattle.echelons.specs.Echelon.{coordinates, remainder as what_is_left, in_span, reduced_basis, IsReducedEchelon};
ghost use Rattle.elim_fp.specs.Rows.{vectors_of};
ghost use Rattle.elim_fp.specs.Solving.{IsSolution, IsFault};

use crate::eliminate::{left_of, reduce_rows};
use crate::matrix::{Echelon, Matrix, basis_of};
use crate::rows::{FpRow, FpRowList, row_of};
use crate::tables::{nonzero_count, table_of};
use std::alloc::{AllocError, Global};
use thiserror::Error;

/// Why a row has no coefficients over a basis.
#[derive(Clone, Copy, Debug, PartialEq, Eq, Error)]
pub enum SolveFault {
    /// The row is not in the span: the first place that is not 0 after reduction.
    #[error("NotIn")]
    NotIn(usize),
    /// Want of memory.
    #[error("Memory")]
    Memory,
}

/// The reduced echelon basis of the span of the rows.
pub fn echelon(alloc: Global, m: &Matrix) -> Result<Echelon, AllocError>
    ensures prime { IfOk result (λ e. e.prime ≡ m.now.prime) }
    ensures width { IfOk result (λ e. e.width ≡ m.now.width) }
    ensures rows { IfOk result (λ e. e.rows ≡ reduced_basis (number m.now.prime) m.now.width (in_span (number m.now.prime) m.now.width m.now.rows)) }
{
    let rows = reduce_rows(alloc, m.prime(), m.width(), m.rows().as_slice())?;
    Ok(basis_of(m.prime(), m.width(), FpRowList::from_rows(rows)))
}

/// The rank of a matrix: how many rows each basis of the span of its rows has.
pub fn rank(alloc: Global, m: &Matrix) -> Result<usize, AllocError>
    ensures { IfOk result (λ n. n ≡ length (reduced_basis (number m.now.prime) m.now.width (in_span (number m.now.prime) m.now.width m.now.rows))) }
{
    let rows = m.rows();
    let width = m.width();
    let table = table_of(alloc, m.prime(), width, rows.as_slice())?;
    Ok(nonzero_count(&table, width))
}

/// The coefficients of a row over the basis, which are its entries at the leading places.
/// `NotIn` exactly where the row is not in the span.
pub fn solve(alloc: Global, e: &Echelon, v: &FpRow) -> Result<FpRow, SolveFault>
    requires prime { v.now.prime ≡ e.now.prime }
    requires width { length v.now.values ≡ e.now.width }
    ensures coefficients { IfOk result (λ r. IsSolution e.now v.now.values r) }
    ensures fault { IfErr result (λ f. IsFault e.now v.now.values f) }
{
    let width = v.width();
    let Ok(rest) = left_of(e.rows().as_slice(), v) else {
        return Err(SolveFault::Memory);
    };
    let place = rest.lead();
    if place < width {
        return Err(SolveFault::NotIn(place));
    }
    match entries_at_leads(alloc, e.rows().as_slice(), v) {
        Ok(row) => Ok(row),
        Err(_) => Err(SolveFault::Memory),
    }
}

/// What is left of a row after the combination of the basis that has its entries at the leading places.
pub fn remainder(e: &Echelon, v: &FpRow) -> Result<FpRow, AllocError>
    requires prime { v.now.prime ≡ e.now.prime }
    requires width { length v.now.values ≡ e.now.width }
    ensures prime { IfOk result (λ r. r.prime ≡ e.now.prime) }
    ensures values { IfOk result (λ r. r.values ≡ what_is_left (number e.now.prime) e.now.width e.now.rows v.now.values) }
{
    let _ = v.width();
    let rest = left_of(e.rows().as_slice(), v)?;
    Ok(rest)
}

/// The entries of a row at the leading places of the basis.
pub fn leading_entries(alloc: Global, e: &Echelon, v: &FpRow) -> Result<FpRow, AllocError>
    requires prime { v.now.prime ≡ e.now.prime }
    requires width { length v.now.values ≡ e.now.width }
    ensures prime { IfOk result (λ r. r.prime ≡ e.now.prime) }
    ensures values { IfOk result (λ r. r.values ≡ coordinates e.now.rows v.now.values) }
{
    let entries = entries_at_leads(alloc, e.rows().as_slice(), v)?;
    Ok(entries)
}

/// The entries of a row at the leading places of basis rows.
fn entries_at_leads(alloc: Global, basis: &[FpRow], v: &FpRow) -> Result<FpRow, AllocError>
    requires echelon { IsReducedEchelon (number v.now.prime) (length v.now.values) (vectors_of basis.now) }
    ensures prime { IfOk result (λ r. r.prime ≡ v.now.prime) }
    ensures values { IfOk result (λ r. r.values ≡ coordinates (vectors_of basis.now) v.now.values) }
{
    let mut values = Vec::with_capacity(alloc, basis.len())?;
    for row in basis {
        values.push(v.entry(row.lead()))?;
    }
    row_of(alloc, v.prime(), &values)
}
