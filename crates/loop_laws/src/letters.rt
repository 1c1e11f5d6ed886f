// The pairs of a letter and a word, with the twist of the letters.
ghost use Rattle.std.specs.Prelude.{ℕ, ◌<◌};
ghost use Rattle.fp_field.specs.Chains.{Terms};
ghost use Rattle.fp_field.specs.Reduction.{IsComplex};
ghost use Rattle.spaces.specs.Spaces.{Space, loops, set_of};
ghost use Rattle.spaces.specs.Orders.{ordered};
ghost use Rattle.spaces.specs.Allowed.{IsAllowed};
ghost use Rattle.ez_laws.specs.LetterSides.{IsLetter};
ghost use Rattle.twist_laws.specs.LeftDegrees.{LowersLeft, IsSeriesOf, transferred, LowersByTwo};
ghost use Rattle.loop_laws.specs.FoxComplexes.{LetterPair, letters_of, twist_of, letter_pairs};

/// The pairs of a letter and a word are a complex: the square of the differential of pairs plus the twist
/// of the letters is 0 (Rubio and Sergeraert, Constructive Homological Algebra and Applications,
/// chapter 3).
pub fn letter_pairs_are_a_complex()
    ensures { (p : ℕ) (a : Space) → 0 < p → IsAllowed (loops a) → IsComplex p (letter_pairs p a) }
{}

/// The twist of the letters lowers the degree by 1 and the dimension of the letter by at least 1, and so
/// it does before and after the flow.
pub fn letter_twist_lowers_left()
    ensures { (p : ℕ) (a : Space) → 0 < p → IsAllowed (loops a)
        → LowersLeft p (letters_of p a) (IsLetter (set_of a)) (ordered (loops a)) (twist_of p a) }
{}

/// Where P is the sum of the series 1 - k q + k q k q - .. of the flow k and the twist q of the letters, the
/// transferred difference AW q P EML lowers the degree by 1 and the left degree by at least 2, since a loop
/// group of a space without edges has one vertex (Shih 1962).
pub fn letter_twist_lowers_by_two()
    ensures { (p : ℕ) (a : Space) (P : LetterPair p a → Terms (LetterPair p a)) → 0 < p → IsAllowed (loops a)
        → IsSeriesOf p (letters_of p a) (IsLetter (set_of a)) (ordered (loops a)) (twist_of p a) P
        → LowersByTwo p (letters_of p a) (IsLetter (set_of a)) (ordered (loops a))
        (transferred p (letters_of p a) (IsLetter (set_of a)) (ordered (loops a)) (twist_of p a) P) }
{}
