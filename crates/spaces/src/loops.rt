// Loop groups and path spaces: the laws of a group, of a simplicial set and of a twisting operator.
ghost use Rattle.spaces.specs.Simplicial.{IsSimplicial};
ghost use Rattle.spaces.specs.Products.{IsTwisting};
ghost use Rattle.spaces.specs.Groups.{IsSimplicialGroup};
ghost use Rattle.spaces.specs.WordGroups.{IsGroup, inverse_word};
ghost use Rattle.spaces.specs.LoopGroups.{IsReduced, word_times, letter_word};
ghost use Rattle.spaces.specs.Spaces.{Space, loops, paths, set_of};
ghost use Rattle.std.specs.Prelude.{[]};

/// The reduced words of letters are a group with the empty word as unit, and the inverse of a word
/// is the word turned around with the inverse of each letter (May, Simplicial Objects, chapter VI).
pub fn reduced_word_laws()
    ensures { (a : Space) → IsSimplicial (set_of a)
        → IsGroup (IsReduced (set_of a)) (word_times (set_of a)) [] (inverse_word (set_of a)) }
{}

/// The loop group of a simplicial set is a simplicial set (May, Simplicial Objects, chapter VI).
pub fn loop_laws()
    ensures { (a : Space) → IsSimplicial (set_of a) → IsSimplicial (set_of (loops a)) }
{}

/// The loop group of a simplicial set is a simplicial group: faces and degeneracies carry products
/// of words to products (May, Simplicial Objects, chapters IV and VI).
pub fn loop_group_laws()
    ensures { (a : Space) → IsSimplicial (set_of a)
        → IsSimplicialGroup (set_of (loops a)) (word_times (set_of a)) (λ n. []) (inverse_word (set_of a)) }
{}

/// The letter of a simplex is a twisting operator from a simplicial set to its loop group (May,
/// Simplicial Objects, chapter VI).
pub fn letter_laws()
    ensures { (a : Space) → IsSimplicial (set_of a)
        → IsTwisting (set_of a) (set_of (loops a)) (letter_word (set_of a)) (word_times (set_of a)) }
{}

/// The path space of a simplicial set is a simplicial set (May, Simplicial Objects, chapters IV and
/// VI).
pub fn path_laws()
    ensures { (a : Space) → IsSimplicial (set_of a) → IsSimplicial (set_of (paths a)) }
{}
