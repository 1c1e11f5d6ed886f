// Vectors of cycles over small cells.
ghost use Rattle.std.specs.Prelude.{◌≡◌, IfOk, All, length, map};
ghost use Rattle.std.specs.List.Sorted.{IsStrictlySortedBy};
ghost use Rattle.fp_field.specs.Field.{number};
ghost use Rattle.echelons.specs.Echelon.{in_span, reduced_basis};
ghost use Rattle.elim_fp.specs.Rows.{vectors_of, IsRow};
ghost use Rattle.cells.specs.Small.{small_cmp};
ghost use Rattle.homology_rules.specs.Held.{HasSmallOver};
ghost use Rattle.homology_rules.specs.CycleVectors.{coordinates_over, cycle_vectors_over, small_chains};

use crate::columns::cells_in;
use crate::marks::leading_marks;
use crate::rows::{coordinate_row, kernel_rows_of, small_chain};
use elim_fp::{Echelon, FpRow, FpRowList, echelon, matrix_of, relations};
use fp_field::Prime;
use oracle_iface::CellValue;
use seqs::Arc;
use std::alloc::{AllocError, Global};
use term_lang::SmallCell;

/// The coordinates, over small cells that rise, of the small chains that cells of the table hold.
pub fn coordinate_rows(
    alloc: Global,
    p: Prime,
    cells: &[SmallCell],
    chains: &[Arc<CellValue>],
) -> Result<Vec<FpRow>, AllocError>
    requires rising { IsStrictlySortedBy small_cmp cells.now }
    requires chains { All (λ v. HasSmallOver p v.outcome) chains.now }
    ensures each { IfOk result (λ l. All (IsRow p (length cells.now)) l.items) }
    ensures rows { IfOk result (λ l. vectors_of l.items ≡ map (λ d. coordinates_over small_cmp (number p) cells.now d) (small_chains chains.now)) }
{
    let mut rows = Vec::with_capacity(alloc, chains.len())?;
    for chain in chains {
        rows.push(coordinate_row(alloc, p, cells, 0, small_chain(chain.get()))?)?;
    }
    Ok(rows)
}

/// The reduced echelon basis of the span, over small cells that rise, of the small chains that cells of the
/// table hold.
pub fn span_basis(
    alloc: Global,
    p: Prime,
    cells: &[SmallCell],
    chains: &[Arc<CellValue>],
) -> Result<Echelon, AllocError>
    requires rising { IsStrictlySortedBy small_cmp cells.now }
    requires chains { All (λ v. HasSmallOver p v.outcome) chains.now }
    ensures prime { IfOk result (λ e. e.prime ≡ p) }
    ensures width { IfOk result (λ e. e.width ≡ length cells.now) }
    ensures rows { IfOk result (λ e. e.rows ≡ reduced_basis (number p) (length cells.now) (in_span (number p) (length cells.now) (map (λ d. coordinates_over small_cmp (number p) cells.now d) (small_chains chains.now)))) }
{
    let rows = coordinate_rows(alloc, p, cells, chains)?;
    let rows = FpRowList::from_rows(rows);
    echelon(alloc, &matrix_of(p, cells.len(), rows))
}

/// The vectors of cycles over small cells that rise: `chains` are their differentials, and `above` those of
/// the small cells one degree higher, as cells of the table hold them. The rows are the reduced echelon basis
/// of the vectors whose differential is 0 and that are 0 at the leading places of the span of `above`.
pub fn cycle_rows(
    alloc: Global,
    p: Prime,
    cells: &[SmallCell],
    chains: &[Arc<CellValue>],
    above: &[Arc<CellValue>],
) -> Result<Echelon, AllocError>
    requires rising { IsStrictlySortedBy small_cmp cells.now }
    requires lengths { length chains.now ≡ length cells.now }
    requires chains { All (λ v. HasSmallOver p v.outcome) chains.now }
    requires above { All (λ v. HasSmallOver p v.outcome) above.now }
    ensures prime { IfOk result (λ e. e.prime ≡ p) }
    ensures width { IfOk result (λ e. e.width ≡ length cells.now) }
    ensures rows { IfOk result (λ e. e.rows ≡ cycle_vectors_over small_cmp (number p) cells.now (small_chains chains.now) (small_chains above.now)) }
{
    let span = span_basis(alloc, p, cells, above)?;
    let marks = leading_marks(alloc, span.rows().as_slice(), cells.len())?;
    let columns = cells_in(alloc, chains)?;
    let width = columns.len() + chains.len();
    let rows = kernel_rows_of(alloc, p, &columns, &marks, chains)?;
    relations(alloc, &matrix_of(p, width, rows))
}
