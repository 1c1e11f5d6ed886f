// Simplices of K(Z,1) in their normal form.
ghost use Rattle.std.specs.Prelude.{◌≡◌, ◌-◌, ◌*◌, ◌^◌, ◌≤◌, ℕ, IfOk};
ghost use Rattle.spaces.specs.Spaces.{kz1, set_of};
ghost use Rattle.cells.specs.Dim.{degree_of};
ghost use Rattle.term_lang.specs.Belongs.{IsSimplex};
ghost use Rattle.term_lang.specs.Forms.{form};
ghost use Rattle.term_lang.specs.NormalForms.{HasNormalForms, HasNormalCells};
ghost use Rattle.oracle_iface.specs.CodeSizes.{cell_integer};

use crate::lists::{ints_face, ints_norm};
use cells::{Cell, Simplex, copy_cell};
use simp_ops::{FacePast, compose, face_past};
use std::alloc::{AllocError, Global};

/// The face d_i of a simplex of K(Z,1), of degree 1 to 32 and with integers of magnitude at most
/// 2^40: what the simplicial identities leave of the degeneracies, before the cell or its face in
/// normal form (May, Simplicial Objects, chapter IV, 21). Magnitudes at most double.
pub fn ints_simplex_face(alloc: Global, i: u32, x: &Simplex) -> Result<Simplex, AllocError>
    requires simplex { IsSimplex kz1 (degree_of x.now) x.now }
    requires positive { 1 ≤ degree_of x.now }
    requires most { degree_of x.now ≤ 32 }
    requires index { i ≤ degree_of x.now }
    requires integers { cell_integer x.now.cell ≤ 2 ^ 40 }
    ensures form { IfOk result (λ y. form y kz1 ≡ (set_of kz1).face i (form x.now kz1)) }
    ensures simplex { IfOk result (IsSimplex kz1 (degree_of x.now - 1)) }
    ensures integers { IfOk result (λ y. cell_integer y.cell ≤ 2 * cell_integer x.now.cell) }
{
    let list = match &x.cell {
        Cell::Ints(list) => list,
        _ => unreachable!(),
    };
    match face_past(i, x.degens) {
        FacePast::Absorbed(degens) => Ok(Simplex {
            degens,
            cell: copy_cell(alloc, &x.cell)?,
        }),
        FacePast::Through(j, degens) => {
            let face = ints_norm(alloc, &ints_face(alloc, j, list)?)?;
            Ok(Simplex {
                degens: compose(degens, face.degens),
                cell: face.cell,
            })
        }
    }
}

/// The simplices of the code of K(Z,1) are its simplices, each in one normal form, and stand in the
/// order of the space, in degrees up to 32 (Eilenberg and Zilber; May, Simplicial Objects, chapters I
/// and IV, 21).
pub fn integers_normal_forms()
    ensures simplices { (n : ℕ) → n ≤ 32 → HasNormalForms kz1 n }
    ensures cells { (n : ℕ) → n ≤ 32 → HasNormalCells kz1 n }
{}
