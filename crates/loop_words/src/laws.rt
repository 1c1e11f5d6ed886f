// Laws of words of letters. Each function does nothing; its clauses are the law.
ghost use Rattle.std.specs.Prelude.{◌≡◌, ◌↔◌, ◌<◌, ℕ, List, [], false, true};
ghost use Rattle.spaces.specs.WordGroups.{IsGroup, inverse_word};
ghost use Rattle.spaces.specs.LoopGroups.{reduce, word_times};
ghost use Rattle.spaces.specs.Spaces.{Space, loops, set_of, is_base};
ghost use Rattle.spaces.specs.Allowed.{IsAllowed};
ghost use Rattle.cells.specs.declared.cells.Cell.{Cell};
ghost use Rattle.cells.specs.declared.cells.Cell.TheVariants.{Word};
ghost use Rattle.cells.specs.declared.cells.Letter.{Letter};
ghost use Rattle.cells.specs.declared.cells.Simplex.{Simplex};
ghost use Rattle.term_lang.specs.Belongs.{IsCell, IsSimplex, shares_place};
ghost use Rattle.term_lang.specs.Forms.{form};
ghost use Rattle.normal_forms.specs.Built.{IsBuilt};
ghost use Rattle.loop_words.specs.LetterWords.{IsReduced, reduced, times, inverse};
ghost use Rattle.loop_words.specs.WordForms.{word_form, AreLetters, HasLetters};
ghost use Rattle.loop_words.specs.WordNorms.{AreApart};
ghost use Rattle.loop_words.specs.LoopCells.{IsWordCell};

/// The reduced words of letters are a group with the empty word as unit (Kan; May, Simplicial Objects,
/// chapter VI, 26).
pub fn words_are_a_group()
    ensures { IsGroup IsReduced times [] inverse }
{}

/// The simplices of an allowed space that is built are letters of words of its loop group, in the degrees
/// that masks of the code reach.
pub fn letters_of_built()
    ensures { (a : Space) (n : ℕ) → IsAllowed a → IsBuilt a → n < 32 → HasLetters a n }
{}

/// What words of letters of a space are reduced to, their products and inverses are those of the loop
/// group of the space, and have letters of the space (May, Simplicial Objects, chapter VI, 26).
pub fn words_in_spaces()
    ensures reduced { (a : Space) (n : ℕ) → HasLetters a n → (w : List Letter) → AreLetters a n w
        → AreLetters a n (reduced w) × (word_form a (reduced w) ≡ reduce (set_of a) (word_form a w)) }
    ensures times { (a : Space) (n : ℕ) → HasLetters a n → (u v : List Letter) → AreLetters a n u → AreLetters a n v
        → AreLetters a n (times u v) × (word_form a (times u v) ≡ word_times (set_of a) (word_form a u) (word_form a v)) }
    ensures inverse { (a : Space) (n : ℕ) (w : List Letter) → AreLetters a n w
        → AreLetters a n (inverse w) × (word_form a (inverse w) ≡ inverse_word (set_of a) (word_form a w)) }
{}

/// A word is reduced exactly where no letter is an s_0, and none stands beside its inverse.
pub fn reduced_words_are_apart()
    ensures { (w : List Letter) → IsReduced w ↔ AreApart w }
{}

/// The cells of a loop group are the reduced words of letters of the space that have no place above 0 in
/// common; and where the space has no edge, the empty word is the only cell of dimension 0 (Kan; May,
/// Simplicial Objects, chapter VI, 26).
pub fn loop_cells_are_words()
    ensures words { (a : Space) (n : ℕ) (c : Cell) → IsCell (loops a) n c → IsWordCell a n c }
    ensures cells { (a : Space) (n : ℕ) (w : List Letter) → AreLetters a n w → IsReduced w → shares_place n w ≡ false → IsCell (loops a) n (Word w) }
    ensures vertex { (a : Space) → IsAllowed (loops a) → HasLetters a 0 → (c : Cell) → IsCell (loops a) 0 c → c ≡ Word [] }
{}

/// A simplex of a loop group passes the test of the degeneracies of the vertex exactly where its cell is
/// the empty word.
pub fn loop_base_is_the_empty_word()
    ensures { (a : Space) (n : ℕ) (x : Simplex) → IsSimplex (loops a) n x → (is_base (loops a) (form x (loops a)) ≡ true) ↔ (x.cell ≡ Word []) }
{}
