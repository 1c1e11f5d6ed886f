// Rows of small chains over small cells.
ghost use Rattle.std.specs.Prelude.{◌≡◌, ◌+◌, ◌<◌, ◌^◌, ◌++◌, IfOk, All, length};
ghost use Rattle.std.specs.List.Sorted.{IsStrictlySortedBy};
ghost use Rattle.fp_field.specs.Field.{number};
ghost use Rattle.echelons.specs.Echelon.{zeros};
ghost use Rattle.elim_fp.specs.Rows.{vectors_of, IsRow};
ghost use Rattle.cells.specs.Small.{small_cmp};
ghost use Rattle.homology_rules.specs.Held.{HasSmall, HasSmallOver, small_in};
ghost use Rattle.homology_rules.specs.CycleVectors.{coordinates_over, kernel_row, kernel_rows, small_chains};

use chain_core::Chain;
use elim_fp::{FpRow, FpRowList};
use fp_field::{Fp, Prime};
use oracle_iface::{Body, CellValue, Outcome};
use seqs::Arc;
use std::alloc::{AllocError, Global};
use term_lang::SmallCell;

/// The chain of the small complex that a cell of the table holds.
pub fn small_chain(cell: &CellValue) -> &Chain<SmallCell>
    requires { HasSmall cell.now.outcome }
    ensures { result.now ≡ small_in cell.now.outcome }
{
    match &cell.outcome {
        Outcome::Value(Body::Small(chain)) => chain,
        _ => unreachable!(),
    }
}

/// The coordinates of a small chain over small cells that rise, with zeros behind them.
pub fn coordinate_row(
    alloc: Global,
    p: Prime,
    cells: &[SmallCell],
    more: usize,
    chain: &Chain<SmallCell>,
) -> Result<FpRow, AllocError>
    requires prime { chain.now.prime ≡ p }
    requires rising { IsStrictlySortedBy small_cmp cells.now }
    requires fits { length cells.now + more < 2 ^ 64 }
    ensures prime { IfOk result (λ r. r.prime ≡ p) }
    ensures values { IfOk result (λ r. r.values ≡ coordinates_over small_cmp (number p) cells.now chain.now.terms ++ zeros more) }
{
    let mut row = FpRow::zero(alloc, p, cells.len() + more);
    for (y, c) in chain.terms() {
        match cells.binary_search(y) {
            Ok(place) => row.add_entry(place, *c)?,
            Err(_) => {}
        }
    }
    Ok(row)
}

/// The row of a small cell, marked or not, whose differential is the chain.
fn kernel_row_of(
    alloc: Global,
    p: Prime,
    cells: &[SmallCell],
    count: usize,
    marked: bool,
    chain: &Chain<SmallCell>,
    place: usize,
) -> Result<FpRow, AllocError>
    requires prime { chain.now.prime ≡ p }
    requires rising { IsStrictlySortedBy small_cmp cells.now }
    requires fits { length cells.now + count < 2 ^ 64 }
    requires place { place < count }
    ensures prime { IfOk result (λ r. r.prime ≡ p) }
    ensures values { IfOk result (λ r. r.values ≡ kernel_row small_cmp (number p) cells.now count marked chain.now.terms place) }
{
    if marked {
        let mut row = FpRow::zero(alloc, p, cells.len() + count);
        row.add_entry(cells.len() + place, Fp { value: 1 })?;
        Ok(row)
    } else {
        coordinate_row(alloc, p, cells, count, chain)
    }
}

/// The rows of small cells whose differentials are the chains: the relations between them are the
/// vectors that are 0 at the marked cells and whose differential is 0.
pub fn kernel_rows_of(
    alloc: Global,
    p: Prime,
    cells: &[SmallCell],
    marks: &[bool],
    chains: &[Arc<CellValue>],
) -> Result<FpRowList, AllocError>
    requires lengths { length marks.now ≡ length chains.now }
    requires chains { All (λ v. HasSmallOver p v.outcome) chains.now }
    requires rising { IsStrictlySortedBy small_cmp cells.now }
    requires fits { length cells.now + length chains.now < 2 ^ 64 }
    ensures each { IfOk result (λ l. All (IsRow p (length cells.now + length chains.now)) l) }
    ensures rows { IfOk result (λ l. vectors_of l ≡ kernel_rows small_cmp (number p) cells.now (length chains.now) 0 marks.now (small_chains chains.now)) }
{
    let count = chains.len();
    let mut rows = FpRowList::new(alloc);
    for i in 0..count {
        let chain = small_chain(chains[i].get());
        rows.push(kernel_row_of(alloc, p, cells, count, marks[i], chain, i)?)?;
    }
    Ok(rows)
}
