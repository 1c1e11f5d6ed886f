// The faces of the simplices of the space of a term.
ghost use Rattle.std.specs.Prelude.{◌≡◌, ◌-◌, ◌^◌, ◌<◌, ◌≤◌, IfOk};
ghost use Rattle.spaces.specs.Allowed.{IsAllowed};
ghost use Rattle.spaces.specs.Spaces.{set_of};
ghost use Rattle.cells.specs.Dim.{degree_of};
ghost use Rattle.term_lang.specs.Belongs.{IsSimplex};
ghost use Rattle.term_lang.specs.Forms.{form};
ghost use Rattle.term_lang.specs.SpaceOf.{space_of};
ghost use Rattle.oracle_iface.specs.CodeSizes.{cell_integer};
ghost use Rattle.normal_forms.specs.Built.{IsBuilt};

use crate::bases::degenerate_vertex;
use crate::bundles::bundle_face;
use crate::spheres::sphere_face;
use crate::suspensions::{before, cell_under, raised};
use cells::{Simplex, copy_cell, dim};
use kz1_group::ints_simplex_face;
use normal_forms::{paired, parts_of};
use simp_ops::{FacePast, face_past};
use std::alloc::{AllocError, Global};
use term_lang::{Term, table_face};

/// The face d_i of a simplex of the space of a term, of degree 1 to 32 and with integers of magnitude
/// at most 2^40. In a suspension it is what the simplicial identities leave of the degeneracies, before
/// the cell, or before the face of the cell: d_0 Up(c) is a degeneracy of the base, and d_(j+1) Up(c)
/// is Up(d_j c) (May, Simplicial Objects, chapter VI, 27). In a product it is the pair of the faces, in
/// normal form; in a circle bundle so is it, but that d_0 moves the fibre by the twisting operator (chapter IV, 18).
pub fn face_of(alloc: Global, t: &Term, i: u32, x: &Simplex) -> Result<Simplex, AllocError>
    requires allowed { IsAllowed (space_of t.now) }
    requires built { IsBuilt (space_of t.now) }
    requires simplex { IsSimplex (space_of t.now) (degree_of x.now) x.now }
    requires positive { 1 ≤ degree_of x.now }
    requires most { degree_of x.now ≤ 32 }
    requires index { i ≤ degree_of x.now }
    requires integers { cell_integer x.now.cell ≤ 2 ^ 40 }
    ensures form { let X = space_of t.now in IfOk result (λ y. form y X ≡ (set_of X).face i (form x.now X)) }
    ensures simplex { IfOk result (IsSimplex (space_of t.now) (degree_of x.now - 1)) }
{
    match t {
        Term::Table(table) => Ok(table_face(table, i, x)),
        Term::Sphere(m) => sphere_face(alloc, *m, i, x),
        Term::KZ1 => ints_simplex_face(alloc, i, x),
        Term::Bundle(base, values) => Ok(bundle_face(alloc, base, values, i, x)?),
        Term::Suspension(part) => match face_past(i, x.degens) {
            FacePast::Absorbed(degens) => Ok(Simplex {
                degens,
                cell: copy_cell(alloc, &x.cell)?,
            }),
            FacePast::Through(j, degens) => {
                if j == 0 {
                    return Ok(before(degens, degenerate_vertex(dim(&x.cell) - 1)));
                }
                let under = cell_under(alloc, &x.cell)?;
                let face = face_of(alloc, part.get(), j - 1, &under)?;
                Ok(before(degens, raised(alloc, face)?))
            }
        },
        Term::Product(a, b) => {
            let (left, right) = parts_of(alloc, x)?;
            let left_face = face_of(alloc, a.get(), i, &left)?;
            let right_face = face_of(alloc, b.get(), i, &right)?;
            Ok(paired(alloc, left_face, right_face)?)
        }
        _ => unreachable!(),
    }
}
