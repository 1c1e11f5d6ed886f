// The faces of the simplices of a sphere.
ghost use Rattle.std.specs.Prelude.{◌≡◌, ◌-◌, ◌<◌, ◌≤◌, IfOk};
ghost use Rattle.spaces.specs.Spaces.{sphere, set_of};
ghost use Rattle.cells.specs.Dim.{degree_of};
ghost use Rattle.term_lang.specs.Belongs.{IsSimplex};
ghost use Rattle.term_lang.specs.Forms.{form};

use crate::bases::degenerate_vertex;
use cells::{Simplex, copy_cell, degree};
use simp_ops::{FacePast, face_past};
use std::alloc::{AllocError, Global};

/// The face d_i of a simplex of the sphere of dimension m, of degree 1 to 32: what the simplicial identities leave of
/// the degeneracies before the cell, or, where the face reaches the cell, the degeneracy of the vertex.
pub fn sphere_face(alloc: Global, m: u32, i: u32, x: &Simplex) -> Result<Simplex, AllocError>
    requires dimension { 0 < m }
    requires simplex { IsSimplex (sphere m) (degree_of x.now) x.now }
    requires positive { 1 ≤ degree_of x.now }
    requires most { degree_of x.now ≤ 32 }
    requires index { i ≤ degree_of x.now }
    ensures form { IfOk result (λ y. form y (sphere m) ≡ (set_of (sphere m)).face i (form x.now (sphere m))) }
    ensures simplex { IfOk result (IsSimplex (sphere m) (degree_of x.now - 1)) }
{
    match face_past(i, x.degens) {
        FacePast::Absorbed(degens) => Ok(Simplex {
            degens,
            cell: copy_cell(alloc, &x.cell)?,
        }),
        FacePast::Through(_, _) => Ok(degenerate_vertex(degree(x) - 1)),
    }
}
