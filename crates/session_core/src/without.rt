// A row less a combination of others.
ghost use Rattle.std.specs.Prelude.{◌≡◌, IfOk, All, length};
ghost use Rattle.fp_field.specs.Field.{number};
ghost use Rattle.elim_fp.specs.Rows.{vectors_of, IsRow};
ghost use Rattle.session_core.specs.Divisions.{less_combined};

use elim_fp::FpRow;
use std::alloc::AllocError;

/// A row less the sum of other rows, each times the entry at its place.
pub(crate) fn less_combination(
    row: FpRow,
    numbers: &FpRow,
    rows: &[FpRow],
) -> Result<FpRow, AllocError>
    requires row { IsRow row.prime (length row.values) row }
    requires rows { All (IsRow row.prime (length row.values)) rows.now }
    requires prime { numbers.now.prime ≡ row.prime }
    requires lengths { length numbers.now.values ≡ length rows.now }
    ensures row { IfOk result (λ r. IsRow row.prime (length row.values) r) }
    ensures values { IfOk result (λ r. r.values ≡ less_combined (number row.prime) (length row.values) row.values numbers.now.values (vectors_of rows.now)) }
{
    let mut rest = row;
    for i in 0..rows.len() {
        rest.take_away(&rows[i], numbers.entry(i))?;
    }
    Ok(rest)
}
