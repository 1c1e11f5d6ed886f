ghost use Rattle.std.specs.Prelude.{◌≡◌, IfOk};
ghost use Rattle.cells.specs.declared.cells.Cell.TheVariants.{Top};
ghost use Rattle.term_lang.specs.declared.terms.Term.TheVariants.{Sphere};
ghost use Rattle.term_lang.specs.SpaceOf.{space_of};
ghost use Rattle.ez_flow.specs.Parts.{IsPairOf};
ghost use Rattle.space_pairs.specs.Parts.{IsReached};

use crate::simplices::edge;
use crate::texts::push_line;
use cells::Cell;
use chain_core::Chain;
use ez_flow::{flow, pair_cell};
use ez_maps::{Tensor, aw, eml};
use fp_field::Prime;
use space_faces::faces_of;
use space_pairs::SpacePair;
use std::alloc::{AllocError, Global};
use term_lang::Term;

/// The two parts of the torus.
pub(crate) fn torus(circle: &Term) -> SpacePair<'_>
    requires circle { circle.now ≡ Sphere 1 }
    ensures left { result.left.term.now ≡ Sphere 1 }
    ensures right { result.right.term.now ≡ Sphere 1 }
    ensures most { result.most ≡ 0 }
{
    SpacePair {
        left: faces_of(circle),
        right: faces_of(circle),
        most: 0,
    }
}

/// The pair of the cell of the circle with itself.
pub(crate) fn square(alloc: Global) -> Result<Cell, AllocError>
    ensures { IfOk result (IsPairOf (IsReached (space_of (Sphere 1)) 0) (IsReached (space_of (Sphere 1)) 0) 1) }
{
    pair_cell(alloc, edge(0), edge(0))
}

/// The tensor of the cell of the circle with itself.
pub(crate) fn tops() -> Tensor<Cell, Cell>
    ensures left { result.left ≡ Top 1 }
    ensures right { result.right ≡ Top 1 }
{
    Tensor {
        left: Cell::Top(1),
        right: Cell::Top(1),
    }
}

fn aw_of_square(alloc: Global, circle: &Term) -> Result<Chain<Tensor<Cell, Cell>>, AllocError>
    requires circle { circle.now ≡ Sphere 1 }
{
    let whole = torus(circle);
    aw(alloc, &whole, Prime::Three, &square(alloc)?)
}

fn flow_of_square(alloc: Global, circle: &Term) -> Result<Chain<Cell>, AllocError>
    requires circle { circle.now ≡ Sphere 1 }
{
    let whole = torus(circle);
    flow(alloc, &whole, Prime::Three, &square(alloc)?)
}

fn eml_of_tops(alloc: Global, circle: &Term) -> Result<Chain<Cell>, AllocError>
    requires circle { circle.now ≡ Sphere 1 }
{
    let whole = torus(circle);
    eml(alloc, &whole, Prime::Three, &tops())
}

/// Alexander-Whitney, Eilenberg-Mac Lane and the flow on the torus.
pub(crate) fn push_torus(out: &mut String, alloc: Global, circle: &Term) -> Result<(), AllocError>
    requires circle { circle.now ≡ Sphere 1 }
{
    push_line(out, "AW <S1,S1>", &aw_of_square(alloc, circle)?)?;
    push_line(out, "flow <S1,S1>", &flow_of_square(alloc, circle)?)?;
    push_line(out, "EML S1*S1", &eml_of_tops(alloc, circle)?)
}
