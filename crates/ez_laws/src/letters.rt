// The maps for the letters and words of a loop group.
ghost use Rattle.std.specs.Prelude.{ℕ, ◌<◌};
ghost use Rattle.fp_field.specs.Reduction.{IsReduction};
ghost use Rattle.spaces.specs.Spaces.{Space, loops, set_of};
ghost use Rattle.spaces.specs.Orders.{ordered};
ghost use Rattle.spaces.specs.Allowed.{IsAllowed};
ghost use Rattle.values.specs.Twists.{letters};
ghost use Rattle.ez_laws.specs.Sides.{IsLeft, IsRight};
ghost use Rattle.ez_laws.specs.LetterSides.{IsLetter};
ghost use Rattle.ez_laws.specs.Instances.{letter_maps, IsLetterFlow, LettersKeepLeft};

/// The letters of a loop group are a left part, with the first face d_1 - d_0 of the space, and its
/// words a right part.
pub fn words_are_sides()
    ensures { (p : ℕ) (a : Space) → 0 < p → IsAllowed (loops a)
        → IsRight (ordered (loops a)) × IsLeft p (letters p (ordered a)) (IsLetter (set_of a)) }
{}

/// Alexander-Whitney, Eilenberg-Mac Lane and the flow are a reduction of the complex of pairs of a
/// letter and a word to their tensor complex, in all degrees.
pub fn letter_pairs_meet()
    ensures { (p : ℕ) (a : Space) → 0 < p → IsAllowed (loops a) → IsReduction p (letter_maps p a) }
{}

/// The flow on pairs of a letter and a word is the one map with its equations.
pub fn letter_flow_is_one()
    ensures { (p : ℕ) (a : Space) → 0 < p → IsAllowed (loops a) → IsLetterFlow p a }
{}

/// No map raises the dimension of the letter.
pub fn letters_keep_left()
    ensures { (p : ℕ) (a : Space) → 0 < p → IsAllowed (loops a) → LettersKeepLeft p a }
{}
