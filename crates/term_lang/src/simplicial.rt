// Simplicial sets by their faces and degeneracies.
ghost use Rattle.std.specs.Prelude.{◌≡◌, ◌+◌, ◌-◌, ◌<◌, ◌≤◌, IfOk};
ghost use Rattle.spaces.specs.Simplicial.{IsSimplicial};
ghost use Rattle.spaces.specs.Spaces.{Space, set_of};
ghost use Rattle.cells.specs.Dim.{degree_of};
ghost use Rattle.term_lang.specs.Belongs.{IsSimplex};
ghost use Rattle.term_lang.specs.Forms.{form};

use cells::Simplex;
use std::alloc::{AllocError, Global};

/// A simplicial set by its faces and degeneracies (May, Simplicial Objects, chapter I, 1).
pub trait Faces {
    ghost use Rattle.std.specs.Prelude.{ℕ};
    ghost use Rattle.cells.specs.declared.cells.Simplex.{Simplex};

    // The space whose simplices are meant.
    ghost space: { Self → Space };

    // The simplices of which a face may be asked, as far as degrees and integers go.
    ghost has_faces: { Self → Simplex → Type 0 };

    // The simplices of which a degeneracy may be asked.
    ghost has_degeneracies: { Self → Simplex → Type 0 };

    // The simplicial identities hold of the space.
    ghost identities: { (s : Self) → IsSimplicial (set_of (space s)) };

    /// The face d_i of a simplex of degree 1 or more, with i at most the degree.
    fn face(&self, alloc: Global, i: u32, x: &Simplex) -> Result<Simplex, AllocError>
        requires simplex { IsSimplex (space self.now) (degree_of x.now) x.now }
        requires positive { 1 ≤ degree_of x.now }
        requires index { i ≤ degree_of x.now }
        requires within { has_faces self.now x.now }
        ensures form { IfOk result (λ y. form y (space self.now) ≡ (set_of (space self.now)).face i (form x.now (space self.now))) }
        ensures simplex { IfOk result (IsSimplex (space self.now) (degree_of x.now - 1)) };

    /// The degeneracy s_i of a simplex, with i at most the degree.
    fn degeneracy(&self, alloc: Global, i: u32, x: &Simplex) -> Result<Simplex, AllocError>
        requires simplex { IsSimplex (space self.now) (degree_of x.now) x.now }
        requires index { i ≤ degree_of x.now }
        requires within { has_degeneracies self.now x.now }
        ensures form { IfOk result (λ y. form y (space self.now) ≡ (set_of (space self.now)).degeneracy i (form x.now (space self.now))) }
        ensures simplex { IfOk result (IsSimplex (space self.now) (degree_of x.now + 1)) };
}
