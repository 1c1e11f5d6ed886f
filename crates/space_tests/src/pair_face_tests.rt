// Faces and degeneracies of a torus, and the twisted first face of a circle bundle, worked by hand from the definitions.
ghost use Rattle.std.specs.Prelude.{◌≡◌, ◌^◌, ◌<◌, ◌≤◌, IfOk, List, [], ◌∷◌, pos};
ghost use Rattle.spaces.specs.Allowed.{IsAllowed, IsTable};
ghost use Rattle.cells.specs.declared.cells.Cell.TheVariants.{Row as RowCell, Top, Ints};
ghost use Rattle.term_lang.specs.declared.tables.Row.{Row};
ghost use Rattle.term_lang.specs.declared.terms.Term.TheVariants.{Sphere, Product, Bundle};
ghost use Rattle.term_lang.specs.Rows.{rows_of};
ghost use Rattle.finite_sets.specs.Spheres.{IsSphereTable};
ghost use Rattle.term_lang.specs.SpaceOf.{space_of};

use crate::texts::push_line;
use cells::{Cell, IntList, Simplex};
use finite_sets::sphere_table;
use normal_forms::paired;
use seqs::{Box, new_seq};
use simp_ops::Degens;
use space_faces::faces_of;
use std::alloc::{AllocError, Global};
use term_lang::{Faces, Term, check_term};

// The product of two circles.
fn torus(alloc: Global) -> Result<Term, AllocError>
    ensures { IfOk result (λ t. t ≡ Product (Sphere 1) (Sphere 1)) }
{
    let left = Box::new(alloc, Term::Sphere(1))?;
    let right = Box::new(alloc, Term::Sphere(1))?;
    Ok(Term::Product(left, right))
}

// A mask before the cell of the circle.
fn circle(mask: u64) -> Simplex
    requires { mask < 2 ^ 32 }
    ensures mask { result.degens.mask ≡ mask }
    ensures cell { result.cell ≡ Top 1 }
{
    Simplex {
        degens: Degens { mask },
        cell: Cell::Top(1),
    }
}

// The face d_i of the cell <1:S1,0:S1>.
fn torus_face(alloc: Global, i: u32) -> Result<Simplex, AllocError>
    requires { i ≤ 2 }
{
    let term = torus(alloc)?;
    let x = paired(alloc, circle(2), circle(1))?;
    faces_of(&term).face(alloc, i, &x)
}

// The degeneracy s_0 of the cell <S1,S1>.
fn torus_degeneracy(alloc: Global) -> Result<Simplex, AllocError> {
    let term = torus(alloc)?;
    let x = paired(alloc, circle(0), circle(0))?;
    faces_of(&term).degeneracy(alloc, 0, &x)
}

/// The faces of a cell of the torus, and a degeneracy.
pub(crate) fn push_torus_faces(out: &mut String, alloc: Global) -> Result<(), AllocError> {
    push_line(out, "d_0 <1:S1,0:S1>", &torus_face(alloc, 0)?)?;
    push_line(out, "d_1 <1:S1,0:S1>", &torus_face(alloc, 1)?)?;
    push_line(out, "d_2 <1:S1,0:S1>", &torus_face(alloc, 2)?)?;
    push_line(out, "s_0 <S1,S1>", &torus_degeneracy(alloc)?)
}

// The bundle of the value 1 on the cell of the 2-sphere.
fn bundle_of_one(alloc: Global) -> Result<Term, AllocError>
    ensures { IfOk result (λ t. (rows : List Row) × (t ≡ Bundle rows (pos 0 ∷ (pos 1 ∷ []))) × IsTable (rows_of rows) × IsSphereTable 2 rows) }
{
    let base = sphere_table(alloc, 2)?;
    let _ = base.rows();
    let values = zero_and_one(alloc)?;
    Ok(Term::Bundle(base, values))
}

fn zero_and_one(alloc: Global) -> Result<IntList, AllocError>
    ensures { IfOk result (λ values. values ≡ pos 0 ∷ (pos 1 ∷ [])) }
{
    let mut values = new_seq(alloc);
    values.push(0)?;
    values.push(1)?;
    Ok(values)
}

// The cell of the 2-sphere as a row of its table.
fn cell_of_the_sphere() -> Simplex
    ensures mask { result.degens.mask ≡ 0 }
    ensures cell { result.cell ≡ RowCell 2 1 }
{
    Simplex {
        degens: Degens { mask: 0 },
        cell: Cell::Row(2, 1),
    }
}

// The degeneracy s_0 of |5|.
fn five(alloc: Global) -> Result<Simplex, AllocError>
    ensures mask { IfOk result (λ x. x.degens.mask ≡ 1) }
    ensures cell { IfOk result (λ x. x.cell ≡ Ints (pos 5 ∷ [])) }
{
    let mut list: IntList = new_seq(alloc);
    list.push(5)?;
    Ok(Simplex {
        degens: Degens { mask: 1 },
        cell: Cell::Ints(list),
    })
}

// The face d_i of the cell <S2,0:|5|>, where S2 twists by |1|.
fn face_of_five(alloc: Global, t: &Term, i: u32) -> Result<Simplex, AllocError>
    requires allowed { IsAllowed (space_of t.now) }
    requires bundle { (rows : List Row) × (t.now ≡ Bundle rows (pos 0 ∷ (pos 1 ∷ []))) × IsTable (rows_of rows) × IsSphereTable 2 rows }
    requires index { i ≤ 2 }
{
    let fibre = five(alloc)?;
    let x = paired(alloc, cell_of_the_sphere(), fibre)?;
    faces_of(t).face(alloc, i, &x)
}

fn push_faces_of_five(out: &mut String, alloc: Global, t: &Term) -> Result<(), AllocError>
    requires allowed { IsAllowed (space_of t.now) }
    requires bundle { (rows : List Row) × (t.now ≡ Bundle rows (pos 0 ∷ (pos 1 ∷ []))) × IsTable (rows_of rows) × IsSphereTable 2 rows }
{
    push_line(out, "d_0 <S2,0:|5|>", &face_of_five(alloc, t, 0)?)?;
    push_line(out, "d_1 <S2,0:|5|>", &face_of_five(alloc, t, 1)?)?;
    push_line(out, "d_2 <S2,0:|5|>", &face_of_five(alloc, t, 2)?)
}

/// The faces of that cell, where the bundle is allowed.
pub(crate) fn push_bundle_faces(out: &mut String, alloc: Global) -> Result<(), AllocError> {
    let t = bundle_of_one(alloc)?;
    if check_term(&t).is_ok() {
        push_faces_of_five(out, alloc, &t)?;
    }
    Ok(())
}
