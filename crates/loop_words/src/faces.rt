// Faces of words, over the simplicial set of their letters.
ghost use Rattle.std.specs.Prelude.{◌≡◌, ℕ, ◌-◌, ◌≤◌, reverse, IfOk, OnOk};
ghost use Rattle.spaces.specs.Spaces.{set_of};
ghost use Rattle.spaces.specs.LoopGroups.{loop_face};
ghost use Rattle.loop_words.specs.LetterWords.{IsReduced, word_before};
ghost use Rattle.loop_words.specs.WordForms.{word_form, Every, AreLetters, HasLetters};
ghost use Rattle.loop_words.specs.WordFaces.{IsFaced, HaveDegree, IsWordFace, PutsFaces, pair_of};

use crate::stacks::{from_top, put_before};
use cells::{Letter, LetterList, Simplex};
use std::alloc::{AllocError, Global};
use term_lang::Faces;

/// The face d_i of a word of positive degree, with i at most the degree. For i at least 1 each letter y
/// becomes d_(i+1) y; for i = 0 a letter y becomes the inverse of d_0 y and then d_1 y, and an inverse
/// letter y becomes the inverse of d_1 y and then d_0 y; and the whole is reduced (Kan; May, Simplicial
/// Objects, chapter VI, 26).
pub fn word_face<X: Faces>(
    alloc: Global,
    x: &X,
    i: u32,
    w: &LetterList,
) -> Result<LetterList, AllocError>
    requires { Every (IsFaced (X.space x.now) (X.has_faces x.now) i) w.now }
    ensures face { IfOk result (IsWordFace (X.space x.now) i w.now) }
    ensures form { let a = X.space x.now in (n : ℕ) → 1 ≤ n → HaveDegree n w.now → HasLetters a (n - 1)
        → IfOk result (λ y. word_form a y ≡ loop_face (set_of a) i (word_form a w.now)) }
    ensures letters { (n : ℕ) → 1 ≤ n → HaveDegree n w.now → IfOk result (AreLetters (X.space x.now) (n - 1)) }
    ensures reduced { IfOk result IsReduced }
{
    let letters = w.as_slice();
    let mut stack = Vec::new(alloc);
    let mut left = letters.len();
    while left > 0 {
        left -= 1;
        put_faces(alloc, x, i, &letters[left], &mut stack)?;
    }
    from_top(alloc, stack)
}

// Puts what the face d_i makes of a letter before the reduced word of a stack.
fn put_faces<X: Faces>(
    alloc: Global,
    x: &X,
    i: u32,
    letter: &Letter,
    stack: &mut Vec<Letter>,
) -> Result<(), AllocError>
    requires { IsFaced (X.space x.now) (X.has_faces x.now) i letter.now.simplex }
    ensures { OnOk result (PutsFaces (X.space x.now) i letter.now (reverse stack.old.items) (reverse stack.new.items)) }
{
    let y = &letter.simplex;
    if i > 0 {
        let simplex = x.face(alloc, i + 1, y)?;
        let inverse = letter.inverse;
        return put_before(stack, Letter { inverse, simplex });
    }
    let d0 = x.face(alloc, 0, y)?;
    let d1 = x.face(alloc, 1, y)?;
    if letter.inverse {
        return put_pair(stack, d1, d0);
    }
    put_pair(stack, d0, d1)
}

// Puts the inverse of one simplex and then another before the reduced word of a stack.
fn put_pair(stack: &mut Vec<Letter>, first: Simplex, then: Simplex) -> Result<(), AllocError>
    ensures { OnOk result (reverse stack.new.items ≡ word_before (pair_of first then) (reverse stack.old.items)) }
{
    put_before(
        stack,
        Letter {
            inverse: false,
            simplex: then,
        },
    )?;
    put_before(
        stack,
        Letter {
            inverse: true,
            simplex: first,
        },
    )
}
