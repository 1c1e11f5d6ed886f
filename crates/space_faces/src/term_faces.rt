// The simplicial set of the space of a term.
ghost use Rattle.std.specs.Prelude.{◌≡◌, ◌^◌, ◌≤◌};
ghost use Rattle.spaces.specs.Allowed.{IsAllowed};
ghost use Rattle.cells.specs.Dim.{degree_of};
ghost use Rattle.term_lang.specs.SpaceOf.{space_of};
ghost use Rattle.oracle_iface.specs.CodeSizes.{cell_integer};
ghost use Rattle.normal_forms.specs.Built.{IsBuilt};
ghost use Rattle.space_faces.specs.Built.{IsAllowedBuilt};
ghost use Rattle.space_faces.specs.Kept.{allowed_built_prop, kept_laws};

use crate::faces::face_of;
use cells::{Simplex, copy_cell};
use simp_ops::degenerate;
use std::alloc::{AllocError, Global};
use term_lang::{Faces, Term};

/// The simplicial set of the space of a term, by its faces and degeneracies. A face may be asked of
/// a simplex of degree up to 32 whose integers are at most 2^40 in magnitude, a degeneracy of one of
/// degree up to 30.
#[derive(Drop)]
pub struct TermFaces<'a> {
    pub term: &'a Term,
    pub ghost allowed: { IsAllowedBuilt (space_of term.now) } by { allowed_built_prop (space_of term.now) },
}

/// The faces and degeneracies of the space of a term (May, Simplicial Objects, chapter I, 1).
pub fn faces_of(t: &Term) -> TermFaces<'_>
    requires allowed { IsAllowed (space_of t.now) }
    requires built { IsBuilt (space_of t.now) }
    ensures { result.term.now ≡ t.now }
{
    TermFaces { term: t }
}

impl<'a> Faces for TermFaces<'a> {
    ghost space = { λ s. space_of s.term.now };

    ghost has_faces = { λ s x. (degree_of x ≤ 32) × (cell_integer x.cell ≤ 2 ^ 40) };

    ghost has_degeneracies = { λ s x. degree_of x ≤ 30 };

    ghost identities = { λ s. kept_laws (space_of s.term.now) s.allowed };

    fn face(&self, alloc: Global, i: u32, x: &Simplex) -> Result<Simplex, AllocError> {
        face_of(alloc, self.term, i, x)
    }

    fn degeneracy(&self, alloc: Global, i: u32, x: &Simplex) -> Result<Simplex, AllocError> {
        let cell = copy_cell(alloc, &x.cell)?;
        Ok(Simplex {
            degens: degenerate(i, x.degens),
            cell,
        })
    }
}
