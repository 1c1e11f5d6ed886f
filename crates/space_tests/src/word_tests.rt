// Words of the loop group of the 2-sphere: a letter is given by whether it is an inverse, and by the mask before the cell.
ghost use Rattle.std.specs.Prelude.{IfOk};
ghost use Rattle.loop_words.specs.LetterWords.{IsReduced};

use crate::texts::push_line;
use cells::{Cell, Letter, LetterList, Simplex};
use loop_words::{word_inv, word_mul, word_norm, word_reduce};
use seqs::new_seq;
use simp_ops::Degens;
use std::alloc::{AllocError, Global};

fn word(alloc: Global, letters: &[(bool, u32)]) -> Result<LetterList, AllocError> {
    let mut word = new_seq(alloc);
    for (inverse, mask) in letters {
        let degens = Degens {
            mask: u64::from(*mask),
        };
        word.push(Letter {
            inverse: *inverse,
            simplex: Simplex {
                degens,
                cell: Cell::Top(2),
            },
        })?;
    }
    Ok(word)
}

fn product(alloc: Global, a: &[(bool, u32)], b: &[(bool, u32)]) -> Result<LetterList, AllocError> {
    word_mul(alloc, &word(alloc, a)?, &word(alloc, b)?)
}

fn inverse(alloc: Global, a: &[(bool, u32)]) -> Result<LetterList, AllocError> {
    word_inv(alloc, &word(alloc, a)?)
}

fn reduction(alloc: Global, a: &[(bool, u32)]) -> Result<LetterList, AllocError>
    ensures { IfOk result IsReduced }
{
    word_reduce(alloc, &word(alloc, a)?)
}

// The normal form in degree 3 of the word of some letters.
fn normal_form(alloc: Global, a: &[(bool, u32)]) -> Result<Simplex, AllocError> {
    let reduced = reduction(alloc, a)?;
    word_norm(alloc, 3, &reduced)
}

/// Products, inverses, reductions and normal forms of words.
pub(crate) fn push_words(out: &mut String, alloc: Global) -> Result<(), AllocError> {
    let x = (false, 0b0110);
    let y = (false, 0b1010);
    let x_inverse = (true, 0b0110);
    let y_inverse = (true, 0b1010);
    push_line(out, "x x^-1", &product(alloc, &[x], &[x_inverse])?)?;
    push_line(
        out,
        "x y y^-1 x^-1 y",
        &product(alloc, &[x, y], &[y_inverse, x_inverse, y])?,
    )?;
    push_line(out, "inverse of x y^-1", &inverse(alloc, &[x, y_inverse])?)?;
    push_line(
        out,
        "x (s_0) x^-1 y",
        &reduction(alloc, &[x, (false, 0b11), x_inverse, y])?,
    )?;
    push_line(out, "norm of x y", &normal_form(alloc, &[x, y])?)?;
    push_line(out, "norm of []", &normal_form(alloc, &[])?)
}
