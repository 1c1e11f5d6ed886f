// Ranks and nullities of the small differentials of a degree.
ghost use Rattle.std.specs.Prelude.{◌≡◌, IsTrue, IfOk, All, length};
ghost use Rattle.std.specs.List.{Contains};
ghost use Rattle.std.specs.List.Sorted.{IsStrictlySortedBy};
ghost use Rattle.fp_field.specs.Field.{number};
ghost use Rattle.fp_field.specs.Chains.{EachKey};
ghost use Rattle.cells.specs.Small.{small_cmp};
ghost use Rattle.homology_rules.specs.Held.{HasSmall, HasSmallOver};
ghost use Rattle.homology_rules.specs.CycleVectors.{small_chains, AreCovered};
ghost use Rattle.session_core.specs.Dimensions.{rank_over, nullity_over};

use chain_core::Chain;
use elim_fp::{FpRowList, matrix_of, rank as rank_of};
use fp_field::Prime;
use homology_rules::{cells_in, coordinate_rows, small_chain};
use oracle_iface::CellValue;
use seqs::Arc;
use std::alloc::{AllocError, Global};
use term_lang::SmallCell;

/// The rank, over small cells that rise, of the small chains that cells of the table hold.
pub(crate) fn rank(
    alloc: Global,
    p: Prime,
    cells: &[SmallCell],
    chains: &[Arc<CellValue>],
) -> Result<usize, AllocError>
    requires rising { IsStrictlySortedBy small_cmp cells.now }
    requires chains { All (λ v. HasSmallOver p v.outcome) chains.now }
    ensures { IfOk result (λ r. r ≡ rank_over small_cmp (number p) cells.now (small_chains chains.now)) }
{
    let rows = FpRowList::from_rows(coordinate_rows(alloc, p, cells, chains)?);
    rank_of(alloc, &matrix_of(p, cells.len(), rows))
}

/// How many combinations of the small chains that cells of the table hold are 0: the length of a basis of these.
pub(crate) fn nullity(
    alloc: Global,
    p: Prime,
    chains: &[Arc<CellValue>],
) -> Result<usize, AllocError>
    requires { All (λ v. HasSmallOver p v.outcome) chains.now }
    ensures { IfOk result (λ n. n ≡ nullity_over small_cmp (number p) (length chains.now) (small_chains chains.now)) }
{
    let cells = cells_in(alloc, chains)?;
    let rank = rank(alloc, p, &cells, chains)?;
    Ok(chains.len() - rank)
}

/// Whether each small cell of a chain is one of the cells, which rise.
fn has_cells(cells: &[SmallCell], chain: &Chain<SmallCell>) -> bool
    requires { IsStrictlySortedBy small_cmp cells.now }
    ensures { IsTrue result → EachKey (Contains cells.now) chain.now.terms }
{
    for (y, _) in chain.terms() {
        match cells.binary_search(y) {
            Ok(_) => {}
            Err(_) => return false,
        }
    }
    true
}

/// Whether each small cell of the small chains that cells of the table hold is one of the cells, which rise.
pub(crate) fn is_covered(cells: &[SmallCell], chains: &[Arc<CellValue>]) -> bool
    requires rising { IsStrictlySortedBy small_cmp cells.now }
    requires chains { All (λ v. HasSmall v.outcome) chains.now }
    ensures { IsTrue result → AreCovered cells.now (small_chains chains.now) }
{
    for chain in chains {
        if !has_cells(cells, small_chain(chain.get())) {
            return false;
        }
    }
    true
}
