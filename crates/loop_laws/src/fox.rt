// Fox's expansion of words and its inverse.
ghost use Rattle.std.specs.Prelude.{ℕ, ◌<◌};
ghost use Rattle.fp_field.specs.Reduction.{IsReduction};
ghost use Rattle.spaces.specs.Spaces.{Space, loops};
ghost use Rattle.spaces.specs.Allowed.{IsAllowed};
ghost use Rattle.loop_laws.specs.FoxComplexes.{fox_maps};
ghost use Rattle.loop_laws.specs.FoxLaws.{FoxIsInverse, FoxCarriesDifferentials, FoxRespectsDegeneracies};

/// Fox's expansion and `unfox` are inverse to each other, between the words of positive degree of a loop
/// group and the pairs of a letter and a word (Fox, Free differential calculus I, 1953).
pub fn fox_is_inverse()
    ensures { (p : ℕ) (a : Space) → 0 < p → IsAllowed (loops a) → FoxIsInverse p a }
{}

/// They carry the differential of words to that of pairs with the twist of the letters, and back, in
/// degrees of at least 1. In degree 1 both differentials are 0.
pub fn fox_carries_differentials()
    ensures { (p : ℕ) (a : Space) → 0 < p → IsAllowed (loops a) → FoxCarriesDifferentials p a }
{}

/// They are 0 on what is degenerate: on words that are an s_j, on pairs that an s_j is taken on both
/// parts of, and on pairs whose letter is an s_0.
pub fn fox_respects_degeneracies()
    ensures { (p : ℕ) (a : Space) → 0 < p → IsAllowed (loops a) → FoxRespectsDegeneracies p a }
{}

/// The words of positive degree are a reduction to the pairs of a letter and a word with the twist, by
/// Fox's expansion, `unfox` and no homotopy, in all degrees.
pub fn words_reduce_to_pairs()
    ensures { (p : ℕ) (a : Space) → 0 < p → IsAllowed (loops a) → IsReduction p (fox_maps p a) }
{}
