// Cells and chains under Up.
ghost use Rattle.std.specs.Prelude.{◌≡◌, ◌-◌, IfOk, map};
ghost use Rattle.fp_field.specs.Field.{number};
ghost use Rattle.fp_field.specs.Chains.{scale};
ghost use Rattle.fp_field.specs.Normal.{normal};
ghost use Rattle.cells.specs.Order.{cell_cmp};
ghost use Rattle.cells.specs.Small.{small_cmp};
ghost use Rattle.cells.specs.declared.cells.SmallCell.TheVariants.{Up as SmallUp};
ghost use Rattle.oracle_iface.specs.Keys.{formal};
ghost use Rattle.susp_rules.specs.Bodies.{cells_up, smalls_up};

use chain_core::Chain;
use fp_field::{Fp, Prime, value};
use seqs::{Box, new_seq};
use std::alloc::{AllocError, Global};
use term_lang::{Cell, SmallCell, SmallList, copy_cell, copy_small};

/// The element -1.
fn minus_one(p: Prime) -> Fp
    ensures { result.value ≡ number p - 1 }
{
    Fp {
        value: value(p) - 1,
    }
}

/// Small cells under Up, in order.
pub(crate) fn up_list(alloc: Global, cells: &[SmallCell]) -> Result<SmallList, AllocError>
    ensures { IfOk result (λ l. l ≡ map (λ y. SmallUp y) cells.now) }
{
    let mut raised = new_seq(alloc);
    for y in cells {
        raised.push(SmallCell::Up(Box::new(alloc, copy_small(alloc, y)?)?))?;
    }
    Ok(raised)
}

/// A chain of small cells under Up. They rise as the cells below them do, so each goes to the end.
pub(crate) fn up_small(
    alloc: Global,
    chain: &Chain<SmallCell>,
) -> Result<Chain<SmallCell>, AllocError>
    ensures { IfOk result (λ c. c ≡ formal chain.now.prime (smalls_up chain.now.terms)) }
{
    let mut raised = Chain::new(alloc, chain.prime());
    for (y, c) in chain.terms() {
        raised.add_term(SmallCell::Up(Box::new(alloc, copy_small(alloc, y)?)?), *c)?;
    }
    Ok(raised)
}

/// A chain of cells under Up.
pub(crate) fn up_big(alloc: Global, chain: &Chain<Cell>) -> Result<Chain<Cell>, AllocError>
    ensures { IfOk result (λ c. c ≡ formal chain.now.prime (cells_up chain.now.terms)) }
{
    let mut raised = Chain::new(alloc, chain.prime());
    for (x, c) in chain.terms() {
        raised.add_term(Cell::Up(Box::new(alloc, copy_cell(alloc, x)?)?), *c)?;
    }
    Ok(raised)
}

/// The negative of a chain of small cells under Up.
pub(crate) fn minus_up_small(
    alloc: Global,
    chain: &Chain<SmallCell>,
) -> Result<Chain<SmallCell>, AllocError>
    ensures { let p = chain.now.prime in IfOk result (λ c. c ≡ formal p (normal small_cmp (number p) (scale (number p - 1) (smalls_up chain.now.terms)))) }
{
    let mut raised = up_small(alloc, chain)?;
    raised.scale(minus_one(chain.prime()));
    Ok(raised)
}

/// The negative of a chain of cells under Up.
pub(crate) fn minus_up_big(alloc: Global, chain: &Chain<Cell>) -> Result<Chain<Cell>, AllocError>
    ensures { let p = chain.now.prime in IfOk result (λ c. c ≡ formal p (normal cell_cmp (number p) (scale (number p - 1) (cells_up chain.now.terms)))) }
{
    let mut raised = up_big(alloc, chain)?;
    raised.scale(minus_one(chain.prime()));
    Ok(raised)
}
