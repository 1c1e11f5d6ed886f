// Pairs of small cells of base and fibre.
ghost use Rattle.std.specs.Prelude.{◌≡◌, ◌++◌, IfOk, OnOk, All};
ghost use Rattle.homology_rules.specs.Degrees.{HasCells};
ghost use Rattle.twist_rules.specs.PairBases.{pairs_with, cell_pairs, pairs_held};

use homology_rules::small_cells;
use oracle_iface::CellValue;
use seqs::{Arc, Box, new_seq};
use std::alloc::{AllocError, Global};
use term_lang::{SmallCell, SmallList, copy_small};

/// Puts the pairs of a small cell with each of a list at the end.
fn push_pairs_with(
    alloc: Global,
    pairs: &mut SmallList,
    x: &SmallCell,
    ys: &[SmallCell],
) -> Result<(), AllocError>
    ensures { OnOk result (pairs.new ≡ pairs.old ++ pairs_with x.now ys.now) }
{
    for y in ys {
        let left = Box::new(alloc, copy_small(alloc, x)?)?;
        let right = Box::new(alloc, copy_small(alloc, y)?)?;
        pairs.push(SmallCell::Pair(left, right))?;
    }
    Ok(())
}

/// Puts the pairs of each of a list with each of another at the end, the first slowest.
fn push_pairs(
    alloc: Global,
    pairs: &mut SmallList,
    xs: &[SmallCell],
    ys: &[SmallCell],
) -> Result<(), AllocError>
    ensures { OnOk result (pairs.new ≡ pairs.old ++ cell_pairs xs.now ys.now) }
{
    for x in xs {
        push_pairs_with(alloc, pairs, x, ys)?;
    }
    Ok(())
}

/// The pairs of the small cells that cells of the table hold: of the first with the second, of the third
/// with the fourth, and so on.
pub(crate) fn pairs_in(alloc: Global, cells: &[Arc<CellValue>]) -> Result<SmallList, AllocError>
    requires { All (λ v. HasCells v.outcome) cells.now }
    ensures { IfOk result (λ l. l ≡ pairs_held cells.now) }
{
    let mut pairs = new_seq(alloc);
    for i in 0..cells.len() / 2 {
        let left = small_cells(cells[2 * i].get());
        let right = small_cells(cells[2 * i + 1].get());
        push_pairs(alloc, &mut pairs, left.as_slice(), right.as_slice())?;
    }
    Ok(pairs)
}
