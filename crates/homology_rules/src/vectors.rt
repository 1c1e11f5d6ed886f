// The terms of vectors over small cells.
ghost use Rattle.std.specs.Prelude.{◌≡◌, ◌<◌, IfOk, All, length};
ghost use Rattle.fp_field.specs.Field.{number};
ghost use Rattle.chain_core.specs.Formal.{numbers};
ghost use Rattle.homology_rules.specs.Vectors.{terms_over};

use elim_fp::FpRow;
use fp_field::Fp;
use std::alloc::{AllocError, Global};
use term_lang::{SmallCell, copy_small};

/// The small cells at which a vector is not 0, in order, each with its number.
pub fn terms_of_vector(
    alloc: Global,
    cells: &[SmallCell],
    vector: &FpRow,
) -> Result<Vec<(SmallCell, Fp)>, AllocError>
    requires { length vector.now.values ≡ length cells.now }
    ensures terms { IfOk result (λ ts. numbers ts.items ≡ terms_over cells.now vector.now.values) }
    ensures elements { IfOk result (λ ts. All (λ t. t.1.value < number vector.now.prime) ts.items) }
{
    let entries = vector.terms();
    let mut terms = Vec::with_capacity(alloc, entries.len())?;
    for (place, c) in entries {
        if *place < cells.len() {
            terms.push((copy_small(alloc, &cells[*place])?, *c))?;
        }
    }
    Ok(terms)
}
