// The leading places of rows.
ghost use Rattle.std.specs.Prelude.{◌≡◌, ◌<◌, false, replicate, IfOk, All};
ghost use Rattle.echelons.specs.Echelon.{lead};
ghost use Rattle.elim_fp.specs.Rows.{vectors_of};
ghost use Rattle.homology_rules.specs.CycleVectors.{marked_by};

use elim_fp::FpRow;
use std::alloc::{AllocError, Global};

/// At each place below a width, whether a row leads there.
pub fn leading_marks(alloc: Global, rows: &[FpRow], width: usize) -> Result<Vec<bool>, AllocError>
    requires { All (λ r. lead r.values < width) rows.now }
    ensures { IfOk result (λ m. m.items ≡ marked_by (replicate width false) (vectors_of rows.now)) }
{
    let mut marks = vec![in alloc; false; width]?;
    for row in rows {
        let place = row.lead();
        marks[place] = true;
    }
    Ok(marks)
}
