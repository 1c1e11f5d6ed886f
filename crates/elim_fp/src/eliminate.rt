// What is left of a row over a basis, and the basis of the span of rows.
ghost use Rattle.std.specs.Prelude.{◌≡◌, length, All, IfOk};
ghost use Rattle.fp_field.specs.Field.{number};
ghost use Rattle.echelons.specs.Echelon.{IsVector, remainder, in_span, reduced_basis, IsReducedEchelon};
ghost use Rattle.elim_fp.specs.Rows.{vectors_of, IsRow};

use crate::rows::FpRow;
use crate::tables::{nonzero_rows, reduce_table, table_of};
use fp_field::Prime;
use std::alloc::{AllocError, Global};

/// What is left of a row after the combination of basis rows that has its entries at their leading places.
pub fn left_of(basis: &[FpRow], v: &FpRow) -> Result<FpRow, AllocError>
    requires echelon { IsReducedEchelon (number v.now.prime) (length v.now.values) (vectors_of basis.now) }
    requires primes { All (λ r. r.prime ≡ v.now.prime) basis.now }
    requires vector { IsVector (number v.now.prime) (length v.now.values) v.now.values }
    ensures prime { IfOk result (λ r. r.prime ≡ v.now.prime) }
    ensures values { IfOk result (λ r. r.values ≡ remainder (number v.now.prime) (length v.now.values) (vectors_of basis.now) v.now.values) }
{
    let mut rest = v.clone()?;
    let mut left = basis.len();
    while left > 0 {
        left -= 1;
        let row = &basis[left];
        rest.take_away(row, v.entry(row.lead()))?;
    }
    Ok(rest)
}

/// The reduced echelon basis of the span of rows.
pub fn reduce_rows(
    alloc: Global,
    p: Prime,
    width: usize,
    rows: &[FpRow],
) -> Result<Vec<FpRow>, AllocError>
    requires { All (IsRow p width) rows.now }
    ensures basis { IfOk result (λ b. vectors_of b.items ≡ reduced_basis (number p) width (in_span (number p) width (vectors_of rows.now))) }
    ensures echelon { IfOk result (λ b. IsReducedEchelon (number p) width (vectors_of b.items)) }
    ensures primes { IfOk result (λ b. All (λ r. r.prime ≡ p) b.items) }
{
    let table = reduce_table(table_of(alloc, p, width, rows)?, p)?;
    let basis = nonzero_rows(alloc, &table, width)?;
    Ok(basis)
}
