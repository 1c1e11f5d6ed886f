// The columns of a matrix as rows.
ghost use Rattle.std.specs.Prelude.{◌≡◌, ◌≢◌, ◌<◌, ℕ, All, length, IfOk};
ghost use Rattle.fp_field.specs.Field.{number, plus};
ghost use Rattle.echelons.specs.Echelon.{at_place, zeros};
ghost use Rattle.echelons.proofs.Columns.{column, columns};
ghost use Rattle.elim_fp.specs.Rows.{vectors_of, IsRow};

use crate::rows::FpRow;
use fp_field::Prime;
use std::alloc::{AllocError, Global};

/// The columns of rows of a width, each with an entry for each row.
pub fn transpose(
    alloc: Global,
    p: Prime,
    width: usize,
    rows: &[FpRow],
) -> Result<Vec<FpRow>, AllocError>
    requires { All (IsRow p width) rows.now }
    ensures each { IfOk result (λ l. All (IsRow p (length rows.now)) l.items) }
    ensures columns { IfOk result (λ l. vectors_of l.items ≡ columns (vectors_of rows.now) 0 width) }
{
    let mut turned = zero_rows(alloc, p, rows.len(), width)?;
    for place in 0..rows.len() {
        turned = with_entries(turned, rows.len(), &rows[place], place)?;
    }
    Ok(turned)
}

/// Zero rows of a width.
pub fn zero_rows(
    alloc: Global,
    p: Prime,
    width: usize,
    count: usize,
) -> Result<Vec<FpRow>, AllocError>
    ensures count { IfOk result (λ l. length l.items ≡ count) }
    ensures each { IfOk result (λ l. All (IsRow p width) l.items) }
    ensures zero { IfOk result (λ l. All (λ r. r.values ≡ zeros width) l.items) }
{
    let mut rows = Vec::with_capacity(alloc, count)?;
    while rows.len() < count {
        rows.push(FpRow::zero(alloc, p, width))?;
    }
    Ok(rows)
}

/// Adds to each of some rows, at a place, its entry of another row.
fn with_entries(
    rows: Vec<FpRow>,
    height: usize,
    row: &FpRow,
    place: usize,
) -> Result<Vec<FpRow>, AllocError>
    requires each { All (IsRow row.now.prime height) rows.items }
    requires count { length rows.items ≡ length row.now.values }
    requires place { place < height }
    ensures count { IfOk result (λ l. length l.items ≡ length rows.items) }
    ensures each { IfOk result (λ l. All (IsRow row.now.prime height) l.items) }
    ensures here { IfOk result (λ l. (j : ℕ) → j < length rows.items → at_place (column (vectors_of l.items) place) j ≡ plus (number row.now.prime) (at_place (column (vectors_of rows.items) place) j) (at_place row.now.values j)) }
    ensures others { IfOk result (λ l. (i : ℕ) → i ≢ place → column (vectors_of l.items) i ≡ column (vectors_of rows.items) i) }
{
    let _ = height;
    let mut sums = rows;
    let width = row.width();
    for (at, c) in row.terms() {
        if *at < width {
            sums[*at].add_entry(place, *c)?;
        }
    }
    Ok(sums)
}
