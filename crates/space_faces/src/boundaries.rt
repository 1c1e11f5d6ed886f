// The boundary of a chain of cells.
ghost use Rattle.std.specs.Prelude.{◌≡◌, ◌<◌, ◌≤◌, ◌++◌, ◌+◌, ◌*◌, ℕ, All, IfOk, OnOk};
ghost use Rattle.fp_field.specs.Field.{number, SameMod};
ghost use Rattle.fp_field.specs.Chains.{weigh, EachKey};
ghost use Rattle.chain_core.specs.Formal.{numbers};
ghost use Rattle.spaces.specs.Allowed.{IsAllowed};
ghost use Rattle.cells.specs.declared.cells.Cell.{Cell};
ghost use Rattle.cells.specs.Dim.{dim_of};
ghost use Rattle.term_lang.specs.Belongs.{IsCell};
ghost use Rattle.term_lang.specs.SpaceOf.{space_of};
ghost use Rattle.oracle_iface.specs.Keys.{quote_chain};
ghost use Rattle.normal_forms.specs.Built.{IsBuilt};
ghost use Rattle.space_faces.specs.Boundaries.{IsLowCell, graded_chain, boundary_of};
ghost use Rattle.space_faces.specs.CodeBoundaries.{code_d, kept};

use crate::faces::face_of;
use cells::{Cell, Simplex, copy_cell, dim};
use chain_core::Chain;
use fp_field::{Fp, Prime, neg};
use simp_ops::Degens;
use std::alloc::{AllocError, Global};
use term_lang::Term;

/// The boundary of a chain of cells of a space, of degrees up to 32 and with integers of magnitude at most
/// 2^40: the alternating sum of the faces of each cell, where degenerate faces count as 0 (May, Simplicial
/// Objects, chapter V, 22). In degree 0 it is 0.
pub fn boundary(alloc: Global, t: &Term, z: &Chain<Cell>) -> Result<Chain<Cell>, AllocError>
    requires allowed { IsAllowed (space_of t.now) }
    requires built { IsBuilt (space_of t.now) }
    requires cells { EachKey (IsLowCell (space_of t.now)) z.now.terms }
    ensures prime { IfOk result (λ d. d.prime ≡ z.now.prime) }
    ensures terms { let X = space_of t.now in IfOk result (λ d. d.terms ≡ quote_chain X (boundary_of (number z.now.prime) X (graded_chain X z.now.terms))) }
{
    let p = z.prime();
    let mut terms = Vec::new(alloc);
    for (cell, coefficient) in z.terms() {
        push_faces(alloc, t, p, cell, *coefficient, &mut terms)?;
    }
    Chain::from_terms(alloc, p, terms)
}

// Pushes the faces of a cell that are not degenerate, with alternating signs, each times the coefficient.
fn push_faces(
    alloc: Global,
    t: &Term,
    p: Prime,
    cell: &Cell,
    coefficient: Fp,
    terms: &mut Vec<(Cell, Fp)>,
) -> Result<(), AllocError>
    requires allowed { IsAllowed (space_of t.now) }
    requires built { IsBuilt (space_of t.now) }
    requires cell { IsLowCell (space_of t.now) cell.now }
    requires element { coefficient.value < number p }
    requires elements { All (λ t. t.1.value < number p) terms.old.items }
    ensures elements { OnOk result (All (λ t. t.1.value < number p) terms.new.items) }
    ensures sum { OnOk result ((w : Cell → ℕ) → SameMod (number p) (weigh w (numbers terms.new.items)) (weigh w (numbers terms.old.items) + coefficient.value * weigh w (code_d (number p) (space_of t.now) cell.now))) }
{
    let degree = dim(cell);
    if degree == 0 {
        return Ok(());
    }
    let x = Simplex {
        degens: Degens { mask: 0 },
        cell: copy_cell(alloc, cell)?,
    };
    let mut signed = coefficient;
    for i in 0..degree + 1 {
        let face = face_of(alloc, t, i, &x)?;
        push_face(terms, face, signed)?;
        signed = neg(p, signed);
    }
    Ok(())
}

// Pushes the cell of a simplex that is not degenerate.
fn push_face(terms: &mut Vec<(Cell, Fp)>, face: Simplex, signed: Fp) -> Result<(), AllocError>
    ensures { OnOk result (terms.new.items ≡ terms.old.items ++ kept face signed) }
{
    if face.degens.mask == 0 {
        terms.push((face.cell, signed))?;
    }
    Ok(())
}
