// The faces that the Eilenberg-Zilber maps need: of left simplices as chains, of right ones as simplices.
ghost use Rattle.std.specs.Prelude.{◌≡◌, ℕ, suc, ◌+◌, ◌<◌, ◌≤◌, IfOk, count_ones};
ghost use Rattle.fp_field.specs.Field.{number};
ghost use Rattle.fp_field.specs.Chains.{EachKey};
ghost use Rattle.spaces.specs.Spaces.{Space, Plain, set_of};
ghost use Rattle.spaces.specs.Orders.{ordered};
ghost use Rattle.spaces.specs.Simplicial.{has_degeneracy};
ghost use Rattle.spaces.specs.EilenbergZilber.{linear};
ghost use Rattle.cells.specs.Dim.{dim_of};
ghost use Rattle.ez_laws.specs.Weights.{SameWeights};
ghost use Rattle.ez_laws.specs.Sides.{IsLeft, IsRight, on_keys};
ghost use Rattle.ez_flow.specs.Parts.{left_of, left_in, IsForm, AreRead};

use cells::{Cell, Simplex};
use chain_core::Chain;
use fp_field::Prime;
use std::alloc::{AllocError, Global};

/// The left and right faces of pairs of simplices (Eilenberg and Mac Lane 1953; Romero and Sergeraert,
/// Discrete Vector Fields). The left part is a space or the letters of its loop group, so that its first
/// face may be any chain; the right part is a space.
pub trait FlowFaces {
    ghost use Rattle.std.specs.Prelude.{ℕ, Bool};
    ghost use Rattle.cells.specs.declared.cells.Simplex.{Simplex};
    ghost use Rattle.cells.specs.declared.cells.Cell.{Cell};

    // The spaces that are meant, and whether the left part is the letters of the left space.
    ghost left_space: { Self → Space };

    ghost has_letters: { Self → Bool };

    ghost right_space: { Self → Space };

    // The degree up to which simplices may be asked.
    ghost bound: { Self → ℕ };

    // The left and right simplices of each degree, and the plain simplices that they stand for.
    ghost is_left: { Self → ℕ → Simplex → Type 0 };

    ghost left_form: { (x : Self) → Simplex → Plain (left_space x) };

    ghost is_right: { Self → ℕ → Simplex → Type 0 };

    ghost right_form: { (x : Self) → Simplex → Plain (right_space x) };

    // The simplex of each degree that stands for a plain one, where there is one.
    ghost left_simplex: { (x : Self) → ℕ → Plain (left_space x) → Simplex };

    ghost right_simplex: { (x : Self) → ℕ → Plain (right_space x) → Simplex };

    // The degree that a left cell counts for.
    ghost left_degree_of: { Self → Cell → ℕ };

    /// The degree that a left cell counts for: its dimension, and one less for a letter.
    fn left_degree(&self, c: &Cell) -> u32
        requires { left_degree_of self.now c.now ≤ 32 }
        ensures { result ≡ left_degree_of self.now c.now };

    /// The face d_i of a left simplex of degree 1 or more, with i at most the degree.
    fn left_face(
        &self,
        alloc: Global,
        p: Prime,
        i: u32,
        s: &Simplex,
    ) -> Result<Chain<Simplex>, AllocError>
        requires { (n : ℕ) × is_left self.now (suc n) s.now × (suc n ≤ bound self.now) × (i ≤ suc n) }
        ensures prime { IfOk result (λ c. c.prime ≡ p) }
        ensures simplices { IfOk result (λ c. (n : ℕ) → is_left self.now (suc n) s.now → EachKey (is_left self.now n) c.terms) }
        ensures faces { IfOk result (λ c. (n : ℕ) → is_left self.now (suc n) s.now
            → SameWeights (number p) (on_keys (left_form self.now) c.terms) ((left_of (has_letters self.now) (number p) (left_space self.now)).faces (suc n) i (left_form self.now s.now))) };

    /// The face d_i of a right simplex of degree 1 or more, with i at most the degree.
    fn right_face(&self, alloc: Global, i: u32, s: &Simplex) -> Result<Simplex, AllocError>
        requires { (n : ℕ) × is_right self.now (suc n) s.now × (suc n ≤ bound self.now) × (i ≤ suc n) }
        ensures simplex { IfOk result (λ y. (n : ℕ) → is_right self.now (suc n) s.now → is_right self.now n y) }
        ensures form { IfOk result (λ y. right_form self.now y ≡ (set_of (right_space self.now)).face i (right_form self.now s.now)) };

    ghost short: { (x : Self) → bound x ≤ 32 };

    ghost graded: { (x : Self) (n : ℕ) (s : Simplex) → is_left x n s → count_ones s.degens.mask + left_degree_of x s.cell ≡ n };

    ghost right_graded: { (x : Self) (n : ℕ) (s : Simplex) → is_right x n s → count_ones s.degens.mask + dim_of s.cell ≡ n };

    ghost left_forms: { (x : Self) (p : ℕ) → IsForm (bound x) (left_in (has_letters x) (left_space x)) (left_of (has_letters x) p (left_space x)).degeneracy
        (left_of (has_letters x) p (left_space x)).has_degeneracy (is_left x) (left_form x) };

    ghost right_forms: { (x : Self) → IsForm (bound x) (set_of (right_space x)).In (set_of (right_space x)).degeneracy
        (has_degeneracy (set_of (right_space x))) (is_right x) (right_form x) };

    // Faces of forms are forms.
    ghost left_read: { (x : Self) (p : ℕ) → AreRead (bound x) (left_of (has_letters x) p (left_space x)).faces (is_left x) (left_form x) (left_simplex x) };

    ghost right_read: { (x : Self) → AreRead (bound x) (linear (ordered (right_space x))).faces (is_right x) (right_form x) (right_simplex x) };

    // The simplicial identities.
    ghost left_identities: { (x : Self) (p : ℕ) → 0 < p → IsLeft p (left_of (has_letters x) p (left_space x)) (left_in (has_letters x) (left_space x)) };

    ghost right_identities: { (x : Self) → IsRight (ordered (right_space x)) };
}
