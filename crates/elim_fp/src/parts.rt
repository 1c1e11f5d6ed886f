// Parts of rows, and rows behind one another.
ghost use Rattle.std.specs.Prelude.{◌≡◌, ◌<◌, ◌≤◌, ◌+◌, ◌^◌, ◌++◌, ℕ, All, length, drop, IfOk};
ghost use Rattle.fp_field.specs.Field.{number, plus};
ghost use Rattle.echelons.specs.Echelon.{IsVector, at_place};
ghost use Rattle.elim_fp.specs.Rows.{unit, tails, vectors_of};

use crate::rows::FpRow;
use fp_field::{Fp, Prime};
use std::alloc::{AllocError, Global};

/// A row with the entries of another from a place on added to its first ones.
fn with_part(row: FpRow, other: &FpRow, from: usize) -> Result<FpRow, AllocError>
    requires prime { other.now.prime ≡ row.prime }
    requires vector { IsVector (number row.prime) (length row.values) row.values }
    requires fits { length other.now.values ≤ from + length row.values }
    ensures prime { IfOk result (λ r. r.prime ≡ row.prime) }
    ensures width { IfOk result (λ r. length r.values ≡ length row.values) }
    ensures entries { IfOk result (λ r. (j : ℕ) → j < length row.values → at_place r.values j ≡ plus (number row.prime) (at_place row.values j) (at_place other.now.values (from + j))) }
{
    let mut sum = row;
    let width = other.width();
    for (place, c) in other.terms() {
        if from <= *place && *place < width {
            sum.add_entry(*place - from, *c)?;
        }
    }
    Ok(sum)
}

/// The row from a place on.
pub fn tail_of(alloc: Global, row: &FpRow, from: usize) -> Result<FpRow, AllocError>
    requires { from ≤ length row.now.values }
    ensures prime { IfOk result (λ r. r.prime ≡ row.now.prime) }
    ensures values { IfOk result (λ r. r.values ≡ drop from row.now.values) }
{
    let zero = FpRow::zero(alloc, row.prime(), row.width() - from);
    let tail = with_part(zero, row, from)?;
    Ok(tail)
}

/// The row with a vector behind it that is 1 at a place and 0 at the others.
pub fn beside_unit(
    alloc: Global,
    row: &FpRow,
    place: usize,
    width: usize,
) -> Result<FpRow, AllocError>
    requires place { place < width }
    requires fits { length row.now.values + width < 2 ^ 64 }
    ensures prime { IfOk result (λ r. r.prime ≡ row.now.prime) }
    ensures values { IfOk result (λ r. r.values ≡ row.now.values ++ unit place width) }
{
    let own = row.width();
    let zero = FpRow::zero(alloc, row.prime(), own + width);
    let mut wide = with_part(zero, row, 0)?;
    wide.add_entry(own + place, Fp { value: 1 })?;
    Ok(wide)
}

/// The parts from a place on of the rows that are 0 before it, in order.
pub fn tails_of(
    alloc: Global,
    p: Prime,
    rows: &[FpRow],
    from: usize,
) -> Result<Vec<FpRow>, AllocError>
    requires widths { All (λ r. from ≤ length r.values) rows.now }
    requires primes { All (λ r. r.prime ≡ p) rows.now }
    ensures rows { IfOk result (λ l. vectors_of l.items ≡ tails from (vectors_of rows.now)) }
    ensures primes { IfOk result (λ l. All (λ r. r.prime ≡ p) l.items) }
{
    let _ = p;
    let mut tails = Vec::new(alloc);
    for row in rows {
        if row.lead() >= from {
            tails.push(tail_of(alloc, row, from)?)?;
        }
    }
    Ok(tails)
}
