ghost use Rattle.std.specs.Prelude.{◌≡◌, ◌≤◌, IfOk, [], ◌∷◌, pos};
ghost use Rattle.spaces.specs.Allowed.{IsAllowed};
ghost use Rattle.cells.specs.declared.cells.Cell.TheVariants.{Ints};
ghost use Rattle.term_lang.specs.SpaceOf.{space_of};
ghost use Rattle.normal_forms.specs.Built.{IsBuilt};
ghost use Rattle.space_faces.specs.Boundaries.{IsLowCell};

use crate::texts::push_line;
use cells::{Cell, IntList, Simplex};
use chain_core::Chain;
use fp_field::{Fp, Prime};
use seqs::{Box, new_seq};
use simp_ops::Degens;
use space_faces::{boundary, faces_of};
use std::alloc::{AllocError, Global};
use term_lang::{Faces, Term};

// The boundary of 1 times a cell.
fn boundary_of_cell(
    alloc: Global,
    t: &Term,
    p: Prime,
    cell: Cell,
) -> Result<Chain<Cell>, AllocError>
    requires allowed { IsAllowed (space_of t.now) }
    requires built { IsBuilt (space_of t.now) }
    requires cell { IsLowCell (space_of t.now) cell }
{
    let mut terms = Vec::new(alloc);
    terms.push((cell, Fp { value: 1 }))?;
    let chain = Chain::from_terms(alloc, p, terms)?;
    boundary(alloc, t, &chain)
}

fn boundary_of_the_2_sphere(alloc: Global) -> Result<Chain<Cell>, AllocError> {
    boundary_of_cell(alloc, &Term::Sphere(2), Prime::Three, Cell::Top(2))
}

fn boundary_of_the_circle(alloc: Global) -> Result<Chain<Cell>, AllocError> {
    boundary_of_cell(alloc, &Term::Sphere(1), Prime::Two, Cell::Top(1))
}

// The cell |2|3| of K(Z,1).
fn two_and_three(alloc: Global) -> Result<Cell, AllocError>
    ensures { IfOk result (λ c. c ≡ Ints (pos 2 ∷ pos 3 ∷ [])) }
{
    let mut list: IntList = new_seq(alloc);
    list.push(2)?;
    list.push(3)?;
    Ok(Cell::Ints(list))
}

fn boundary_in_the_integers(alloc: Global) -> Result<Chain<Cell>, AllocError> {
    let cell = two_and_three(alloc)?;
    boundary_of_cell(alloc, &Term::KZ1, Prime::Three, cell)
}

// The face d_i of Up |2|3| in the suspension of K(Z,1).
fn face_of_up(alloc: Global, i: u32) -> Result<Simplex, AllocError>
    requires { i ≤ 3 }
{
    let term = Term::Suspension(Box::new(alloc, Term::KZ1)?);
    let x = Simplex {
        degens: Degens { mask: 0 },
        cell: Cell::Up(Box::new(alloc, two_and_three(alloc)?)?),
    };
    faces_of(&term).face(alloc, i, &x)
}

/// Boundaries of cells, and the faces of a suspended cell.
pub(crate) fn push_faces(out: &mut String, alloc: Global) -> Result<(), AllocError> {
    push_line(out, "D S2", &boundary_of_the_2_sphere(alloc)?)?;
    push_line(out, "D S1", &boundary_of_the_circle(alloc)?)?;
    push_line(out, "D |2|3|", &boundary_in_the_integers(alloc)?)?;
    push_line(out, "d_0 ^|2|3|", &face_of_up(alloc, 0)?)?;
    push_line(out, "d_1 ^|2|3|", &face_of_up(alloc, 1)?)?;
    push_line(out, "d_2 ^|2|3|", &face_of_up(alloc, 2)?)?;
    push_line(out, "d_3 ^|2|3|", &face_of_up(alloc, 3)?)
}
