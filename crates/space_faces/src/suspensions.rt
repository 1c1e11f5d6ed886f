// Simplices of a suspension: Up of a simplex, the cell under Up, and degeneracies before a simplex.
ghost use Rattle.std.specs.Prelude.{◌≡◌, ◌+◌, ◌^◌, ◌<◌, ◌≤◌, suc, map, IfOk};
ghost use Rattle.simp_ops.specs.Words.{IsWord, compose_words};
ghost use Rattle.simp_ops.specs.Bits.{mask_word};
ghost use Rattle.spaces.specs.Tables.{all_degeneracies};
ghost use Rattle.cells.specs.declared.cells.Cell.{Cell as AnyCell};
ghost use Rattle.cells.specs.declared.cells.Cell.TheVariants.{Base, Up};
ghost use Rattle.cells.specs.Dim.{dim_of, degree_of};

use crate::bases::degenerate_vertex;
use cells::{Cell, Simplex, copy_cell, degree, dim};
use seqs::Box;
use simp_ops::{Degens, compose};
use std::alloc::{AllocError, Global};

// The cell under Up, as a simplex without degeneracies.
pub(crate) fn cell_under(alloc: Global, cell: &Cell) -> Result<Simplex, AllocError>
    requires { (under : AnyCell) × (cell.now ≡ Up under) }
    ensures mask { IfOk result (λ x. x.degens.mask ≡ 0) }
    ensures cell { IfOk result (λ x. Up x.cell ≡ cell.now) }
{
    match cell {
        Cell::Up(under) => Ok(Simplex {
            degens: Degens { mask: 0 },
            cell: copy_cell(alloc, under.get())?,
        }),
        _ => unreachable!(),
    }
}

// Up of a simplex: each place of its degeneracies moves up by one. Where its cell is the vertex, it is the degeneracy of the base.
pub(crate) fn raised(alloc: Global, x: Simplex) -> Result<Simplex, AllocError>
    requires degree { degree_of x ≤ 30 }
    requires room { x.degens.mask < 2 ^ 31 }
    ensures base { IfOk result (λ y. dim_of x.cell ≡ 0 → (mask_word y.degens.mask ≡ all_degeneracies (degree_of x + 1)) × (y.cell ≡ Base)) }
    ensures up { IfOk result (λ y. (dim_of x.cell ≡ 0 → ⊥) → (mask_word y.degens.mask ≡ map suc (mask_word x.degens.mask)) × (y.cell ≡ Up x.cell)) }
{
    if dim(&x.cell) == 0 {
        return Ok(degenerate_vertex(degree(&x) + 1));
    }
    Ok(Simplex {
        degens: Degens {
            mask: x.degens.mask << 1,
        },
        cell: Cell::Up(Box::new(alloc, x.cell)?),
    })
}

// Degeneracies before a simplex.
pub(crate) fn before(degens: Degens, x: Simplex) -> Simplex
    requires { IsWord 32 (compose_words (mask_word degens.mask) (mask_word x.degens.mask)) }
    ensures mask { mask_word result.degens.mask ≡ compose_words (mask_word degens.mask) (mask_word x.degens.mask) }
    ensures cell { result.cell ≡ x.cell }
{
    Simplex {
        degens: compose(degens, x.degens),
        cell: x.cell,
    }
}
