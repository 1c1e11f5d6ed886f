// Normal forms of words.
ghost use Rattle.std.specs.Prelude.{◌≡◌, ◌-◌, ◌^◌, ◌≤◌, ◌<◌, ℕ, [], IfOk};
ghost use Rattle.std.specs.List.{list_all};
ghost use Rattle.simp_ops.specs.Bits.{bit};
ghost use Rattle.spaces.specs.Spaces.{Space, loops};
ghost use Rattle.term_lang.specs.Belongs.{IsSimplex};
ghost use Rattle.term_lang.specs.Forms.{form};
ghost use Rattle.loop_words.specs.LetterWords.{IsReduced};
ghost use Rattle.loop_words.specs.WordForms.{word_form, AreLetters, HasLetters};
ghost use Rattle.loop_words.specs.WordNorms.{AreStripped};

use cells::{Cell, Letter, LetterList, Simplex, copy_cell};
use seqs::new_seq;
use simp_ops::{Degens, common, strip};
use std::alloc::{AllocError, Global};

/// The normal form of a simplex of degree n, at most 32, of a loop group, of a reduced word: the places
/// above 0 that all letters have, each moved down by one, are its degeneracies, and its cell has the letters
/// without them. The empty word is the degeneracy of the one of degree 0.
pub fn word_norm(alloc: Global, n: u32, w: &LetterList) -> Result<Simplex, AllocError>
    requires degree { n ≤ 32 }
    requires reduced { IsReduced w.now }
    ensures form { (a : Space) → HasLetters a n → AreLetters a n w.now → IfOk result (λ x. form x (loops a) ≡ word_form a w.now) }
    ensures simplex { (a : Space) → HasLetters a n → AreLetters a n w.now → IfOk result (IsSimplex (loops a) n) }
    ensures empty { (a : Space) → w.now ≡ [] → IfOk result (λ x. IsSimplex (loops a) n x × (form x (loops a) ≡ [])) }
{
    let letters = w.as_slice();
    if letters.is_empty() {
        return Ok(Simplex {
            degens: Degens { mask: (1 << n) - 1 },
            cell: Cell::Word(new_seq(alloc)),
        });
    }
    let shared = shared_places(letters);
    let cell = Cell::Word(stripped(alloc, shared, letters)?);
    Ok(Simplex {
        degens: Degens {
            mask: shared.mask >> 1,
        },
        cell,
    })
}

// The word of all places of a mask.
fn all_places() -> Degens
    ensures { result.mask ≡ 2 ^ 32 - 1 }
{
    Degens { mask: 0xFFFF_FFFF }
}

// The places that all letters have.
fn shared_places(letters: &[Letter]) -> Degens
    ensures { (k : ℕ) → k < 32 → bit result.mask k ≡ list_all (λ l. bit l.simplex.degens.mask k) letters.now }
{
    let mut shared = all_places();
    for letter in letters {
        shared = common(shared, letter.simplex.degens);
    }
    shared
}

// The letters without places that they share.
fn stripped(alloc: Global, shared: Degens, letters: &[Letter]) -> Result<LetterList, AllocError>
    requires { (k : ℕ) → k < 32 → bit shared.mask k ≡ list_all (λ l. bit l.simplex.degens.mask k) letters.now }
    ensures { IfOk result (λ w. AreStripped shared.mask letters.now w) }
{
    let mut word = new_seq(alloc);
    for letter in letters {
        let cell = copy_cell(alloc, &letter.simplex.cell)?;
        let degens = strip(letter.simplex.degens, shared);
        word.push(Letter {
            inverse: letter.inverse,
            simplex: Simplex { degens, cell },
        })?;
    }
    Ok(word)
}
