// A chain of the small complex in its parts.
ghost use Rattle.std.specs.Prelude.{◌≡◌, IfOk, All, length};
ghost use Rattle.std.specs.List.Sorted.{IsStrictlySortedBy};
ghost use Rattle.fp_field.specs.Field.{number};
ghost use Rattle.cells.specs.Small.{small_cmp};
ghost use Rattle.spaces.specs.Spaces.{Space};
ghost use Rattle.homology_rules.specs.CycleVectors.{coordinates_over, small_chains};
ghost use Rattle.homology_rules.specs.Held.{HasSmallOver};
ghost use Rattle.session_core.specs.Divisions.{class_over, filling_over};

use crate::thrifty::thrifty_of;
use crate::without::less_combination;
use chain_core::Chain;
use elim_fp::{FpRow, leading_entries, remainder};
use fp_field::Prime;
use homology_rules::{coordinate_row, coordinate_rows, cycle_rows, span_basis};
use oracle_iface::CellValue;
use seqs::Arc;
use std::alloc::{AllocError, Global};
use term_lang::SmallCell;

/// The coefficients of a vector over the vectors of cycles, and the numbers of the filling.
#[derive(Debug, Drop)]
pub struct Divided {
    pub class: FpRow,
    pub filling: FpRow,
}

/// The parts of a chain over the small cells of a degree: `chains` are the small differentials of these, and
/// `next` those of the small cells of the next degree, as cells of the table hold them.
pub(crate) fn divide(
    alloc: Global,
    p: Prime,
    cells: &[SmallCell],
    chains: &[Arc<CellValue>],
    next: &[Arc<CellValue>],
    image: &Chain<SmallCell>,
) -> Result<Divided, AllocError>
    requires rising { IsStrictlySortedBy small_cmp cells.now }
    requires lengths { length chains.now ≡ length cells.now }
    requires chains { All (λ v. HasSmallOver p v.outcome) chains.now }
    requires next { All (λ v. HasSmallOver p v.outcome) next.now }
    requires prime { image.now.prime ≡ p }
    ensures class_prime { IfOk result (λ d. d.class.prime ≡ p) }
    ensures class { IfOk result (λ d. d.class.values ≡ class_over small_cmp (number p) cells.now (small_chains chains.now) (small_chains next.now) (coordinates_over small_cmp (number p) cells.now image.now.terms)) }
    ensures filling_prime { IfOk result (λ d. d.filling.prime ≡ p) }
    ensures filling_width { IfOk result (λ d. length d.filling.values ≡ length next.now) }
    ensures filling { IfOk result (λ d. (a : Space) → d.filling.values ≡ filling_over small_cmp (number p) cells.now (small_chains chains.now) (small_chains next.now) a (coordinates_over small_cmp (number p) cells.now image.now.terms)) }
{
    let span = span_basis(alloc, p, cells, next)?;
    let cycles = cycle_rows(alloc, p, cells, chains, next)?;
    let vector = coordinate_row(alloc, p, cells, 0, image)?;
    let left = remainder(&span, &vector)?;
    let class = leading_entries(alloc, &cycles, &left)?;
    let rest = less_combination(vector, &class, cycles.rows().as_slice())?;
    let boundaries = coordinate_rows(alloc, p, cells, next)?;
    let filling = thrifty_of(alloc, p, boundaries, rest)?;
    Ok(Divided { class, filling })
}
