// Kernels of linear maps.
ghost use Rattle.std.specs.Prelude.{◌≡◌, ◌<◌, ◌≤◌, ◌+◌, ◌^◌, All, length, IfOk};
ghost use Rattle.fp_field.specs.Field.{number};
ghost use Rattle.echelons.specs.Echelon.{in_kernel, in_null_space, reduced_basis, IsReducedEchelon};
ghost use Rattle.echelons.proofs.Halves.{side, units};
ghost use Rattle.elim_fp.specs.Rows.{vectors_of, IsRow};

use crate::eliminate::reduce_rows;
use crate::matrix::{Echelon, Matrix, basis_of};
use crate::parts::{beside_unit, tails_of};
use crate::rows::{FpRow, FpRowList};
use crate::tables::table_of;
use crate::transposes::transpose;
use fp_field::Prime;
use std::alloc::{AllocError, Global};

/// The reduced echelon basis of the relations between the rows: of all vectors v, with an entry for each
/// row r_i, for which v_1 r_1 + .. + v_n r_n = 0. It is the kernel of the linear map that takes the unit
/// vectors to the rows.
pub fn relations(alloc: Global, m: &Matrix) -> Result<Echelon, AllocError>
    ensures prime { IfOk result (λ e. e.prime ≡ m.now.prime) }
    ensures width { IfOk result (λ e. e.width ≡ length m.now.rows) }
    ensures rows { IfOk result (λ e. e.rows ≡ reduced_basis (number m.now.prime) (length m.now.rows) (in_kernel (number m.now.prime) m.now.width m.now.rows)) }
{
    let rows = m.rows().as_slice();
    let basis = relation_rows(alloc, m.prime(), m.width(), rows)?;
    Ok(basis_of(m.prime(), rows.len(), FpRowList::from_rows(basis)))
}

/// The reduced echelon basis of all vectors v with m v = 0. They are the relations between the columns.
pub fn kernel(alloc: Global, m: &Matrix) -> Result<Echelon, AllocError>
    ensures prime { IfOk result (λ e. e.prime ≡ m.now.prime) }
    ensures width { IfOk result (λ e. e.width ≡ m.now.width) }
    ensures rows { IfOk result (λ e. e.rows ≡ reduced_basis (number m.now.prime) m.now.width (in_null_space (number m.now.prime) m.now.rows)) }
{
    let rows = m.rows().as_slice();
    let basis = null_rows(alloc, m.prime(), m.width(), rows)?;
    Ok(basis_of(m.prime(), m.width(), FpRowList::from_rows(basis)))
}

/// The basis rows of the vectors whose products with all rows are 0.
fn null_rows(
    alloc: Global,
    p: Prime,
    width: usize,
    rows: &[FpRow],
) -> Result<Vec<FpRow>, AllocError>
    requires rows { All (IsRow p width) rows.now }
    requires fits { width + length rows.now < 2 ^ 64 }
    ensures basis { IfOk result (λ b. vectors_of b.items ≡ reduced_basis (number p) width (in_null_space (number p) (vectors_of rows.now))) }
    ensures echelon { IfOk result (λ b. IsReducedEchelon (number p) width (vectors_of b.items)) }
    ensures primes { IfOk result (λ b. All (λ r. r.prime ≡ p) b.items) }
{
    let columns = transpose(alloc, p, width, rows)?;
    let basis = relation_rows(alloc, p, rows.len(), &columns)?;
    Ok(basis)
}

/// The basis rows of the relations between rows of a width.
fn relation_rows(
    alloc: Global,
    p: Prime,
    width: usize,
    rows: &[FpRow],
) -> Result<Vec<FpRow>, AllocError>
    requires rows { All (IsRow p width) rows.now }
    requires fits { width + length rows.now < 2 ^ 64 }
    ensures basis { IfOk result (λ b. vectors_of b.items ≡ reduced_basis (number p) (length rows.now) (in_kernel (number p) width (vectors_of rows.now))) }
    ensures echelon { IfOk result (λ b. IsReducedEchelon (number p) (length rows.now) (vectors_of b.items)) }
    ensures primes { IfOk result (λ b. All (λ r. r.prime ≡ p) b.items) }
{
    let marked = beside_units(alloc, p, width, rows)?;
    let table = table_of(alloc, p, width + rows.len(), &marked)?;
    let tails = tails_of(alloc, p, &table, width)?;
    let basis = reduce_rows(alloc, p, rows.len(), &tails)?;
    Ok(basis)
}

/// Each row with a vector behind it that is 1 at the place of the row in the list and 0 at the others.
fn beside_units(
    alloc: Global,
    p: Prime,
    width: usize,
    rows: &[FpRow],
) -> Result<Vec<FpRow>, AllocError>
    requires rows { All (IsRow p width) rows.now }
    requires fits { width + length rows.now < 2 ^ 64 }
    ensures each { IfOk result (λ l. All (IsRow p (width + length rows.now)) l.items) }
    ensures rows { IfOk result (λ l. vectors_of l.items ≡ side (vectors_of rows.now) (units (length rows.now))) }
{
    let _ = (p, width);
    let count = rows.len();
    let mut marked = Vec::with_capacity(alloc, count)?;
    for place in 0..count {
        marked.push(beside_unit(alloc, &rows[place], place, count)?)?;
    }
    Ok(marked)
}
