// The small cells of the circle, and the maps F and G.
ghost use Rattle.std.specs.Prelude.{◌≡◌, ℕ, [], ◌∷◌, IfOk, pos};
ghost use Rattle.fp_field.specs.Field.{number};
ghost use Rattle.fp_field.specs.Normal.{normal};
ghost use Rattle.spaces.specs.Spaces.{kz1};
ghost use Rattle.spaces.specs.SmallCells.{small_cmp};
ghost use Rattle.cells.specs.declared.cells.Cell.TheVariants.{Ints as IntsCell};
ghost use Rattle.cells.specs.declared.cells.SmallCell.TheVariants.{One as OneCell};
ghost use Rattle.values.specs.Asks.{basis};
ghost use Rattle.values.specs.Values.{value};
ghost use Rattle.values.specs.Integers.{integers_f};
ghost use Rattle.oracle_iface.specs.Keys.{quote_basis, quote_small_chain, formal};

use chain_core::Chain;
use fp_field::{Fp, Prime, reduce};
use seqs::new_seq;
use std::alloc::{AllocError, Global};
use term_lang::{Cell, IntList, SmallCell, SmallList, copy_cell};

/// The edge of the circle.
fn edge(alloc: Global) -> Result<SmallCell, AllocError>
    ensures { IfOk result (λ y. y ≡ OneCell (IntsCell (pos 1 ∷ []))) }
{
    let mut list = new_seq(alloc);
    list.push(1)?;
    Ok(SmallCell::One(Cell::Ints(list)))
}

/// The vertex of the circle.
fn vertex(alloc: Global) -> SmallCell
    ensures { result ≡ OneCell (IntsCell []) }
{
    SmallCell::One(Cell::Ints(new_seq(alloc)))
}

/// The small cells of degree n: the vertex, the edge, and none above.
pub(crate) fn circle_cells(alloc: Global, n: u32) -> Result<SmallList, AllocError>
    ensures { IfOk result (λ ys. (p : ℕ) → ys ≡ quote_basis kz1 (value p (basis kz1 n))) }
{
    let mut cells = new_seq(alloc);
    if n == 0 {
        cells.push(vertex(alloc))?;
    } else if n == 1 {
        cells.push(edge(alloc)?)?;
    }
    Ok(cells)
}

/// F of a list: the vertex for the empty list, a times the edge for |a|, and 0 for a longer list.
pub(crate) fn to_circle(
    alloc: Global,
    p: Prime,
    list: &IntList,
) -> Result<Chain<SmallCell>, AllocError>
    ensures { IfOk result (λ c. c ≡ formal p (quote_small_chain kz1 (normal (small_cmp kz1) (number p) (integers_f (number p) list.now)))) }
{
    let mut chain = Chain::new(alloc, p);
    let items = list.as_slice();
    if items.len() == 0 {
        chain.add_term(vertex(alloc), Fp { value: 1 })?;
    } else if items.len() == 1 {
        chain.add_term(edge(alloc)?, reduce(p, items[0]))?;
    }
    Ok(chain)
}

/// G of a small cell: the chain of the same list.
pub(crate) fn from_circle(alloc: Global, p: Prime, cell: &Cell) -> Result<Chain<Cell>, AllocError>
    ensures { IfOk result (λ c. c ≡ formal p ((cell.now, 1) ∷ [])) }
{
    let mut chain = Chain::new(alloc, p);
    chain.add_term(copy_cell(alloc, cell)?, Fp { value: 1 })?;
    Ok(chain)
}
