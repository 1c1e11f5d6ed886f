// Words and their letters.
ghost use Rattle.std.specs.Prelude.{◌≡◌, ℕ, suc, ◌≤◌};
ghost use Rattle.spaces.specs.Simplicial.{has_degeneracy};
ghost use Rattle.spaces.specs.Spaces.{Space, Plain, loops, set_of};
ghost use Rattle.spaces.specs.Allowed.{IsAllowed};
ghost use Rattle.loop_laws.specs.LetterPlaces.{letters_have};

/// A word of a loop group is an s_j exactly where each of its letters, as a simplex of one degree more, is
/// an s_(j+1).
pub fn words_degenerate_by_letters()
    ensures { (a : Space) (n j : ℕ) (w : Plain (loops a)) → IsAllowed (loops a) → (set_of (loops a)).In (suc n) w → j ≤ n
        → has_degeneracy (set_of (loops a)) j w ≡ letters_have (set_of a) j w }
{}
