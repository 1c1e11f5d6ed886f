// Complements of subspaces.
ghost use Rattle.std.specs.Prelude.{◌≡◌, true, IfOk};
ghost use Rattle.fp_field.specs.Field.{number};
ghost use Rattle.echelons.specs.Echelon.{Vector, IsVector, in_span, complement as complement_basis};
ghost use Rattle.elim_fp.specs.Matching.{unmatched, row_lead};

use crate::matrix::{Echelon, basis_of};
use crate::rows::{FpRow, FpRowList};
use std::alloc::{AllocError, Global};

/// For a subspace in another: the reduced echelon basis of the vectors of the larger, z, that are 0 at
/// the leading places of the smaller, b. It has the rows of z that lead where no row of b does.
pub fn complement(alloc: Global, z: &Echelon, b: &Echelon) -> Result<Echelon, AllocError>
    requires prime { b.now.prime ≡ z.now.prime }
    requires width { b.now.width ≡ z.now.width }
    requires inside { (v : Vector) → IsVector (number z.now.prime) z.now.width v → in_span (number z.now.prime) z.now.width b.now.rows v ≡ true → in_span (number z.now.prime) z.now.width z.now.rows v ≡ true }
    ensures prime { IfOk result (λ e. e.prime ≡ z.now.prime) }
    ensures width { IfOk result (λ e. e.width ≡ z.now.width) }
    ensures rows { IfOk result (λ e. e.rows ≡ complement_basis (number z.now.prime) z.now.width (in_span (number z.now.prime) z.now.width z.now.rows) (in_span (number z.now.prime) z.now.width b.now.rows)) }
{
    let rows = unmatched_rows(alloc, z.rows().as_slice(), b.rows().as_slice())?;
    Ok(basis_of(z.prime(), z.width(), FpRowList::from_rows(rows)))
}

/// The rows that lead where no row of others does, where the leading places rise in both lists and those of
/// the others are among those of the rows.
fn unmatched_rows(alloc: Global, rows: &[FpRow], others: &[FpRow]) -> Result<Vec<FpRow>, AllocError>
    ensures { IfOk result (λ l. l.items ≡ unmatched row_lead rows.now others.now) }
{
    let mut left = Vec::new(alloc);
    let mut next = 0;
    for row in rows {
        if next < others.len() && others[next].lead() == row.lead() {
            next += 1;
        } else {
            left.push(row.clone()?)?;
        }
    }
    Ok(left)
}
