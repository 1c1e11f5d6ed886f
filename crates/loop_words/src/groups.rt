// Reduction, products and inverses of words.
ghost use Rattle.std.specs.Prelude.{◌≡◌, IfOk};
ghost use Rattle.loop_words.specs.LetterWords.{IsReduced, reduced, times, inverse};

use crate::stacks::{from_top, put_word};
use cells::{Letter, LetterList, copy_simplex};
use seqs::new_seq;
use std::alloc::{AllocError, Global};

/// The reduced word of a word of letters: letters that are an s_0 are dropped, and neighbours cancel
/// until none are left to cancel (May, Simplicial Objects, chapter VI, 26).
pub fn word_reduce(alloc: Global, w: &LetterList) -> Result<LetterList, AllocError>
    ensures word { IfOk result (λ word. word ≡ reduced w.now) }
    ensures reduced { IfOk result IsReduced }
{
    let mut stack = Vec::new(alloc);
    put_word(alloc, &mut stack, w.as_slice())?;
    from_top(alloc, stack)
}

/// The product of two words of one degree: one is put after the other, and the whole is reduced (May,
/// Simplicial Objects, chapter VI, 26).
pub fn word_mul(alloc: Global, a: &LetterList, b: &LetterList) -> Result<LetterList, AllocError>
    ensures product { IfOk result (λ product. product ≡ times a.now b.now) }
    ensures reduced { IfOk result IsReduced }
{
    let mut stack = Vec::new(alloc);
    put_word(alloc, &mut stack, b.as_slice())?;
    put_word(alloc, &mut stack, a.as_slice())?;
    from_top(alloc, stack)
}

/// The inverse of a word: it is turned around, with the inverse of each letter in its place. That of a
/// reduced word is reduced.
pub fn word_inv(alloc: Global, a: &LetterList) -> Result<LetterList, AllocError>
    ensures inverse { IfOk result (λ turned. turned ≡ inverse a.now) }
    ensures reduced { IsReduced a.now → IfOk result IsReduced }
{
    let letters = a.as_slice();
    let mut turned = new_seq(alloc);
    let mut left = letters.len();
    while left > 0 {
        left -= 1;
        let letter = &letters[left];
        let simplex = copy_simplex(alloc, &letter.simplex)?;
        turned.push(Letter {
            inverse: !letter.inverse,
            simplex,
        })?;
    }
    Ok(turned)
}
