ghost use Rattle.std.specs.Prelude.{◌≡◌, [], ◌∷◌, pos, IfOk};
ghost use Rattle.cells.specs.declared.cells.Cell.TheVariants.{Row as RowCell};

use crate::texts::push_line;
use cells::{Cell, IntList, Simplex};
use finite_sets::sphere_table;
use seqs::new_seq;
use simp_ops::Degens;
use std::alloc::{AllocError, Global};
use twist_maps::{check_cocycle, cocycle_tau};

// The value 0 on the vertex of a sphere and 5 on its cell.
fn five_on_the_cell(alloc: Global) -> Result<IntList, AllocError>
    ensures { IfOk result (λ values. values ≡ pos 0 ∷ (pos 5 ∷ [])) }
{
    let mut values = new_seq(alloc);
    values.push(0)?;
    values.push(5)?;
    Ok(values)
}

// The cell of the 2-sphere.
fn cell_of_the_sphere() -> Simplex
    ensures mask { result.degens.mask ≡ 0 }
    ensures cell { result.cell ≡ RowCell 2 1 }
{
    Simplex {
        degens: Degens { mask: 0 },
        cell: Cell::Row(2, 1),
    }
}

// The list of integers that the twisting operator gives at the cell.
fn twist_at_the_cell(alloc: Global) -> Result<IntList, AllocError> {
    let base = sphere_table(alloc, 2)?;
    let _ = base.rows();
    let values = five_on_the_cell(alloc)?;
    cocycle_tau(alloc, &base, &values, &cell_of_the_sphere())
}

// Whether no row of dimension 3 is at fault.
fn is_cocycle(alloc: Global) -> Result<bool, AllocError> {
    let base = sphere_table(alloc, 2)?;
    let values = five_on_the_cell(alloc)?;
    Ok(check_cocycle(&base, &values).is_ok())
}

/// The value 5 on the 2-sphere.
pub(crate) fn push_cocycle(out: &mut String, alloc: Global) -> Result<(), AllocError> {
    push_line(out, "twist of S2", &twist_at_the_cell(alloc)?)?;
    push_line(out, "is a cocycle", &is_cocycle(alloc)?)
}
