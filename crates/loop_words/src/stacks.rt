// Reduced words as stacks of letters: the first letter of the word is on top.
ghost use Rattle.std.specs.Prelude.{◌≡◌, reverse, IfOk, OnOk};
ghost use Rattle.loop_words.specs.LetterWords.{before, meets_inverse, word_before};

use cells::{Letter, LetterList, copy_simplex};
use seqs::new_seq;
use std::alloc::{AllocError, Global};

// A copy of a letter.
pub(crate) fn copy_letter(alloc: Global, letter: &Letter) -> Result<Letter, AllocError>
    ensures { IfOk result (λ copy. copy ≡ letter.now) }
{
    let simplex = copy_simplex(alloc, &letter.simplex)?;
    Ok(Letter {
        inverse: letter.inverse,
        simplex,
    })
}

// Whether the top of a stack is the inverse of a letter.
fn meets_inverse(letter: &Letter, stack: &[Letter]) -> bool
    ensures { result ≡ meets_inverse letter.now (reverse stack.now) }
{
    match stack.last() {
        Some(top) => letter.inverse != top.inverse && letter.simplex == top.simplex,
        None => false,
    }
}

// Puts a letter before the reduced word of a stack.
pub(crate) fn put_before(stack: &mut Vec<Letter>, letter: Letter) -> Result<(), AllocError>
    ensures { OnOk result (reverse stack.new.items ≡ before letter (reverse stack.old.items)) }
{
    if letter.simplex.degens.has(0) {
        return Ok(());
    }
    if meets_inverse(&letter, stack.as_slice()) {
        let _ = stack.pop();
        return Ok(());
    }
    stack.push(letter)?;
    Ok(())
}

// Puts a word before the reduced word of a stack, its last letter first.
pub(crate) fn put_word(
    alloc: Global,
    stack: &mut Vec<Letter>,
    word: &[Letter],
) -> Result<(), AllocError>
    ensures { OnOk result (reverse stack.new.items ≡ word_before word.now (reverse stack.old.items)) }
{
    let mut left = word.len();
    while left > 0 {
        left -= 1;
        put_before(stack, copy_letter(alloc, &word[left])?)?;
    }
    Ok(())
}

// The word of a stack.
pub(crate) fn from_top(alloc: Global, stack: Vec<Letter>) -> Result<LetterList, AllocError>
    ensures { IfOk result (λ word. word ≡ reverse stack.items) }
{
    let mut stack = stack;
    let mut word = new_seq(alloc);
    while let Some(letter) = stack.pop() {
        word.push(letter)?;
    }
    Ok(word)
}
