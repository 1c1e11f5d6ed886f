// The boundary of a cell of the space of a term.
ghost use Rattle.std.specs.Prelude.{◌≡◌, IfOk};
ghost use Rattle.fp_field.specs.Field.{number};
ghost use Rattle.fp_field.specs.Normal.{normal};
ghost use Rattle.fp_field.specs.Reduction.{one};
ghost use Rattle.cells.specs.Order.{cell_cmp};
ghost use Rattle.term_lang.specs.SpaceOf.{space_of};
ghost use Rattle.space_faces.specs.Boundaries.{IsLowCell};
ghost use Rattle.space_faces.specs.Built.{IsAllowedBuilt};
ghost use Rattle.asked_parts.specs.PartMaps.{cell_boundary};

use chain_core::Chain;
use fp_field::{Fp, Prime};
use space_faces::boundary;
use std::alloc::{AllocError, Global};
use term_lang::{Cell, Term, copy_cell};

/// The chain of one cell with the coefficient 1.
fn single(alloc: Global, p: Prime, x: &Cell) -> Result<Chain<Cell>, AllocError>
    ensures prime { IfOk result (λ c. c.prime ≡ p) }
    ensures terms { IfOk result (λ c. c.terms ≡ one x.now) }
{
    let mut chain = Chain::new(alloc, p);
    chain.add_term(copy_cell(alloc, x)?, Fp { value: 1 })?;
    Ok(chain)
}

/// The boundary of a cell, of degree up to 32 and with integers of magnitude at most 2^40.
pub(crate) fn cell_boundary(
    alloc: Global,
    t: &Term,
    p: Prime,
    x: &Cell,
) -> Result<Chain<Cell>, AllocError>
    requires built { IsAllowedBuilt (space_of t.now) }
    requires cell { IsLowCell (space_of t.now) x.now }
    ensures prime { IfOk result (λ d. d.prime ≡ p) }
    ensures terms { IfOk result (λ d. d.terms ≡ normal cell_cmp (number p) (cell_boundary p t.now x.now)) }
{
    boundary(alloc, t, &single(alloc, p, x)?)
}
