// Chains of one cell, with the coefficient 1.
ghost use Rattle.std.specs.Prelude.{◌≡◌, [], ◌∷◌, IfOk};
ghost use Rattle.cells.specs.declared.cells.SmallCell.TheVariants.{One as OneCell};
ghost use Rattle.oracle_iface.specs.Keys.{formal};

use chain_core::Chain;
use fp_field::{Fp, Prime};
use std::alloc::{AllocError, Global};
use term_lang::{Cell, SmallCell, copy_cell};

/// The chain of one cell.
pub(crate) fn cell_chain(alloc: Global, p: Prime, x: &Cell) -> Result<Chain<Cell>, AllocError>
    ensures { IfOk result (λ c. c ≡ formal p ((x.now, 1) ∷ [])) }
{
    let mut chain = Chain::new(alloc, p);
    chain.add_term(copy_cell(alloc, x)?, Fp { value: 1 })?;
    Ok(chain)
}

/// The chain of the small cell that is this cell.
pub(crate) fn small_chain(alloc: Global, p: Prime, x: &Cell) -> Result<Chain<SmallCell>, AllocError>
    ensures { IfOk result (λ c. c ≡ formal p ((OneCell x.now, 1) ∷ [])) }
{
    let mut chain = Chain::new(alloc, p);
    chain.add_term(SmallCell::One(copy_cell(alloc, x)?), Fp { value: 1 })?;
    Ok(chain)
}
