// The numbers of a row over others, of which none is used that is a combination of earlier ones.
ghost use Rattle.std.specs.Prelude.{◌≡◌, ◌+◌, ◌-◌, ◌<◌, ◌^◌, ◌∷◌, ℕ, IfOk, All, length, reverse};
ghost use Rattle.fp_field.specs.Field.{number, minus};
ghost use Rattle.echelons.specs.Echelon.{IsVector, at_place, in_kernel, reduced_basis};
ghost use Rattle.elim_fp.specs.Rows.{vectors_of, IsRow};
ghost use Rattle.spaces.specs.Spaces.{Space};
ghost use Rattle.session_core.specs.Questions.{thrifty_numbers};

use elim_fp::{Echelon, FpRow, FpRowList, matrix_of, relations, row_of};
use fp_field::{Prime, neg};
use std::alloc::{AllocError, Global};

/// The relations between a row and others, the row first and then the others from the last to the first. So
/// a relation that leads at one of these says that it is a combination of earlier ones.
fn relations_behind(
    alloc: Global,
    p: Prime,
    rows: Vec<FpRow>,
    row: FpRow,
) -> Result<Echelon, AllocError>
    requires row { IsRow p (length row.values) row }
    requires rows { All (IsRow p (length row.values)) rows.items }
    requires width { length row.values < 2 ^ 63 }
    ensures prime { IfOk result (λ e. e.prime ≡ p) }
    ensures width { IfOk result (λ e. e.width ≡ length rows.items + 1) }
    ensures rows { IfOk result (λ e. e.rows ≡ reduced_basis (number p) (length rows.items + 1) (in_kernel (number p) (length row.values) (row.values ∷ reverse (vectors_of rows.items)))) }
{
    let width = row.width();
    let mut all = rows;
    all.push(row)?;
    all.reverse();
    relations(alloc, &matrix_of(p, width, FpRowList::from_rows(all)))
}

/// The entries of a row after the first place, from the last to the first, each with the other sign.
fn turned(alloc: Global, p: Prime, row: &FpRow, count: usize) -> Result<FpRow, AllocError>
    requires prime { row.now.prime ≡ p }
    requires width { length row.now.values ≡ count + 1 }
    ensures prime { IfOk result (λ r. r.prime ≡ p) }
    ensures vector { IfOk result (λ r. IsVector (number p) count r.values) }
    ensures entries { IfOk result (λ r. (i : ℕ) → i < count → at_place r.values i ≡ minus (number p) (at_place row.now.values (count - i))) }
{
    let mut values = Vec::with_capacity(alloc, count)?;
    for i in 0..count {
        values.push(neg(p, row.entry(count - i)))?;
    }
    row_of(alloc, p, &values)
}

/// The numbers of a row over others, where no row is used that is a combination of those before it. Zeros
/// where the row is not in their span.
pub(crate) fn thrifty_of(
    alloc: Global,
    p: Prime,
    rows: Vec<FpRow>,
    row: FpRow,
) -> Result<FpRow, AllocError>
    requires row { IsRow p (length row.values) row }
    requires rows { All (IsRow p (length row.values)) rows.items }
    requires width { length row.values < 2 ^ 63 }
    ensures prime { IfOk result (λ r. r.prime ≡ p) }
    ensures width { IfOk result (λ r. length r.values ≡ length rows.items) }
    ensures values { IfOk result (λ r. (a : Space) → r.values ≡ thrifty_numbers (number p) a (length row.values) (vectors_of rows.items) row.values) }
{
    let listed: &[FpRow] = &rows;
    let count = listed.len();
    let basis = relations_behind(alloc, p, rows, row)?;
    match basis.rows().get(0) {
        None => Ok(FpRow::zero(alloc, p, count)),
        Some(first) => {
            if first.lead() > 0 {
                return Ok(FpRow::zero(alloc, p, count));
            }
            let numbers = turned(alloc, p, first, count)?;
            Ok(numbers)
        }
    }
}
