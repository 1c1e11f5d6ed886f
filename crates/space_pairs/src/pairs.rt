// The left and right faces of pairs of simplices of two spaces.
ghost use Rattle.std.specs.Prelude.{◌≡◌, ◌≤◌, ◌^◌, false};
ghost use Rattle.std.proofs.Common.{lit≤};
ghost use Rattle.spaces.specs.Spaces.{set_of};
ghost use Rattle.cells.specs.Dim.{dim_of};
ghost use Rattle.term_lang.specs.Forms.{form};
ghost use Rattle.term_lang.specs.Quote.{quote};
ghost use Rattle.term_lang.specs.SpaceOf.{space_of};
ghost use Rattle.space_pairs.specs.Parts.{IsReached, reached_graded, space_forms, space_read, space_left, space_right};

use cells::{Cell, Simplex, dim};
use chain_core::Chain;
use ez_flow::FlowFaces;
use fp_field::{Fp, Prime};
use space_faces::TermFaces;
use std::alloc::{AllocError, Global};
use term_lang::Faces;

/// The faces of pairs of simplices of two spaces, of degrees up to 32: each face of a left simplex is one
/// simplex (May, Simplicial Objects, chapter I, on products). A bundle and a path space take those of base
/// and fibre, and the differential of their twist beside them. The two spaces are any that there is code
/// for. A left or right simplex is one of its space with a reach of at most `most`, which is at most 2^40:
/// the reach bounds the sum of the magnitudes of its integers and is raised by no face and no degeneracy,
/// so that all faces of what is a left or a right simplex may be asked.
#[derive(Drop)]
pub struct SpacePair<'a> {
    pub left: TermFaces<'a>,
    pub right: TermFaces<'a>,
    pub most: u64,
    pub ghost within: { most ≤ 2 ^ 40 },
}

impl<'a> FlowFaces for SpacePair<'a> {
    ghost left_space = { λ x. space_of x.left.term.now };

    ghost has_letters = { λ x. false };

    ghost right_space = { λ x. space_of x.right.term.now };

    ghost bound = { λ x. 32 };

    ghost is_left = { λ x. IsReached (space_of x.left.term.now) x.most };

    ghost left_form = { λ x s. form s (space_of x.left.term.now) };

    ghost is_right = { λ x. IsReached (space_of x.right.term.now) x.most };

    ghost right_form = { λ x s. form s (space_of x.right.term.now) };

    ghost left_simplex = { λ x. quote (space_of x.left.term.now) };

    ghost right_simplex = { λ x. quote (space_of x.right.term.now) };

    ghost left_degree_of = { λ x c. dim_of c };

    fn left_degree(&self, c: &Cell) -> u32 {
        dim(c)
    }

    fn left_face(
        &self,
        alloc: Global,
        p: Prime,
        i: u32,
        s: &Simplex,
    ) -> Result<Chain<Simplex>, AllocError> {
        let face = self.left.face(alloc, i, s)?;
        let mut chain = Chain::new(alloc, p);
        chain.add_term(face, Fp { value: 1 })?;
        Ok(chain)
    }

    fn right_face(&self, alloc: Global, i: u32, s: &Simplex) -> Result<Simplex, AllocError> {
        self.right.face(alloc, i, s)
    }

    ghost short = { λ x. lit≤ tt };

    ghost graded = { λ x n s h. reached_graded (space_of x.left.term.now) x.left.allowed x.most n s h };

    ghost right_graded = { λ x n s h. reached_graded (space_of x.right.term.now) x.right.allowed x.most n s h };

    ghost left_forms = { λ x p. space_forms (space_of x.left.term.now) x.left.allowed x.most };

    ghost right_forms = { λ x. space_forms (space_of x.right.term.now) x.right.allowed x.most };

    ghost left_read = { λ x p. space_read (space_of x.left.term.now) x.left.allowed x.most };

    ghost right_read = { λ x. space_read (space_of x.right.term.now) x.right.allowed x.most };

    ghost left_identities = { λ x p pos. space_left (space_of x.left.term.now) x.left.allowed p pos };

    ghost right_identities = { λ x. space_right (space_of x.right.term.now) x.right.allowed };
}
