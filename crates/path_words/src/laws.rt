ghost use Rattle.std.specs.Prelude.{◌≡◌, ℕ, List};
ghost use Rattle.simp_ops.specs.PathWords.{Step};
ghost use Rattle.path_words.specs.Pairing.{IsPairing, Moves, FaceMoves};
ghost use Rattle.path_words.specs.Events.{steps, SameMasks};
ghost use Rattle.path_words.specs.declared.word.PathWord.{PathWord};

/// The matching pairs sources with targets at the same place. It does nothing; its clause is the law.
pub fn matching_is_a_pairing()
    ensures { (w : List Step) → IsPairing w }
{}

/// A move from a word that is no source to another source, by a face that keeps both cells, leads to
/// one whose target has one pair more. It does nothing; its clauses are the law, on words of steps and
/// on the words of degeneracies of a pair.
pub fn moves_gain_a_pair()
    ensures steps { (u r : List Step) → Moves u r }
    ensures faces { (n i : ℕ) (u v u' v' : List ℕ) → FaceMoves n i u v u' v' }
{}

/// Path words with the same steps have the same length and masks. It does nothing; its clause is the
/// law.
pub fn steps_tell_the_word()
    ensures { (v w : PathWord) → steps v ≡ steps w → SameMasks v w }
{}
