// The small cells that occur in small chains.
ghost use Rattle.std.specs.Prelude.{◌≡◌, ◌++◌, IfOk, OnOk, All, map};
ghost use Rattle.std.specs.List.Sorted.{IsStrictlySortedBy};
ghost use Rattle.cells.specs.Small.{small_cmp};
ghost use Rattle.homology_rules.specs.Held.{HasSmall};
ghost use Rattle.homology_rules.specs.CycleVectors.{small_chains, AreCovered};

use crate::rows::small_chain;
use chain_core::Chain;
use oracle_iface::CellValue;
use seqs::Arc;
use std::alloc::{AllocError, Global};
use term_lang::{SmallCell, copy_small};

/// Pushes the small cells of a chain.
fn push_cells(
    alloc: Global,
    cells: &mut Vec<SmallCell>,
    chain: &Chain<SmallCell>,
) -> Result<(), AllocError>
    ensures { OnOk result (cells.new.items ≡ cells.old.items ++ map (λ t. t.0) chain.now.terms) }
{
    cells.reserve(chain.len())?;
    for (y, _) in chain.terms() {
        cells.push(copy_small(alloc, y)?)?;
    }
    Ok(())
}

/// The small cells that occur in the small chains that cells of the table hold, each once, in order.
pub fn cells_in(alloc: Global, chains: &[Arc<CellValue>]) -> Result<Vec<SmallCell>, AllocError>
    requires { All (λ v. HasSmall v.outcome) chains.now }
    ensures rising { IfOk result (λ l. IsStrictlySortedBy small_cmp l.items) }
    ensures covered { IfOk result (λ l. AreCovered l.items (small_chains chains.now)) }
{
    let mut cells = Vec::new(alloc);
    for chain in chains {
        push_cells(alloc, &mut cells, small_chain(chain.get()))?;
    }
    cells.sort_unstable();
    cells.dedup();
    Ok(cells)
}
