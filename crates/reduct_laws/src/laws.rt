// The combinators meet the equations of a reduction where their parts do. Each law has an empty body, and its clause quotes the maps of
// the combinator itself.
ghost use Rattle.std.specs.Prelude.{◌≡◌, ℕ, suc, [], true, false};
ghost use Rattle.std.specs.Ordering.{eq_by_cmp};
ghost use Rattle.fp_field.specs.Field.{number};
ghost use Rattle.fp_field.specs.Chains.{Each};
ghost use Rattle.fp_field.specs.Reduction.{SameTerms, after, IsDifferential, IsReductionTo, IsReduction, IsSameComplex};

use crate::composed::Composed;
use crate::identity::Identity;
use crate::reduction::Reduction;
use crate::shifted::Shifted;
use crate::summed::Summed;
use chain_core::{Degrees, LinearMap, Source};

/// The identity is a reduction where its differential lowers the degree by 1 and has square 0.
pub fn identity_meets<S: Source, M: Degrees + LinearMap<S, M::Gen, M::Gen>>(whole: &Identity<M>)
where
    M::Gen: Clone + Drop,
    requires lowers { (n : ℕ) (x : M.Gen) → M.generator whole.now.d (suc n) x → Each (M.generator whole.now.d n) (M.image_of whole.now.d x) }
    requires ends { (x : M.Gen) → M.generator whole.now.d 0 x → M.image_of whole.now.d x ≡ [] }
    requires twice { IsDifferential (number whole.now.p) (⟦<Identity<M> as Reduction<S>>⟧.maps whole.now).big }
    ensures { IsReduction (number whole.now.p) (⟦<Identity<M> as Reduction<S>>⟧.maps whole.now) }
{}

/// A composition is a reduction as far as degree N where the first part is one as far as degree N + 1, the second as far as degree N, and
/// the small complex of the first is the big one of the second.
pub fn composed_meets<S: Source, A: Reduction<S>, B: Reduction<S, Big = A::Small, Stop = A::Stop>>(
    whole: &Composed<A, B>,
)
where
    A::Big: Drop,
    A::Small: Drop,
    B::Small: Drop,
    requires prime { B.prime_of whole.now.second ≡ A.prime_of whole.now.first }
    requires middle { IsSameComplex (number (A.prime_of whole.now.first)) (A.maps whole.now.first).small (B.maps whole.now.second).big }
    ensures to { (N : ℕ) → IsReductionTo (number (A.prime_of whole.now.first)) (suc N) (A.maps whole.now.first) → IsReductionTo (number (B.prime_of whole.now.second)) N (B.maps whole.now.second) → IsReductionTo (number (A.prime_of whole.now.first)) N (⟦<Composed<A, B> as Reduction<S>>⟧.maps whole.now) }
    ensures whole { IsReduction (number (A.prime_of whole.now.first)) (A.maps whole.now.first) → IsReduction (number (B.prime_of whole.now.second)) (B.maps whole.now.second) → IsReduction (number (A.prime_of whole.now.first)) (⟦<Composed<A, B> as Reduction<S>>⟧.maps whole.now) }
{}

/// A sum is a reduction as far as its parts are.
pub fn summed_meets<S: Source, A: Reduction<S>, B: Reduction<S, Stop = A::Stop>>(
    whole: &Summed<A, B>,
)
where
    A::Big: Drop,
    A::Small: Drop,
    B::Big: Drop,
    B::Small: Drop,
    requires prime { B.prime_of whole.now.right ≡ A.prime_of whole.now.left }
    ensures to { (N : ℕ) → IsReductionTo (number (A.prime_of whole.now.left)) N (A.maps whole.now.left) → IsReductionTo (number (B.prime_of whole.now.right)) N (B.maps whole.now.right) → IsReductionTo (number (A.prime_of whole.now.left)) N (⟦<Summed<A, B> as Reduction<S>>⟧.maps whole.now) }
    ensures whole { IsReduction (number (A.prime_of whole.now.left)) (A.maps whole.now.left) → IsReduction (number (B.prime_of whole.now.right)) (B.maps whole.now.right) → IsReduction (number (A.prime_of whole.now.left)) (⟦<Summed<A, B> as Reduction<S>>⟧.maps whole.now) }
{}

/// A reduction as far as degree N is one as far as degree N + 1 after a shift up.
pub fn shifted_up_meets<S: Source, A: Reduction<S>>(whole: &Shifted<A>)
where
    A::Big: Drop,
    A::Small: Drop,
    requires up { whole.now.up ≡ true }
    ensures to { (N : ℕ) → IsReductionTo (number (A.prime_of whole.now.of)) N (A.maps whole.now.of) → IsReductionTo (number (A.prime_of whole.now.of)) (suc N) (⟦<Shifted<A> as Reduction<S>>⟧.maps whole.now) }
    ensures whole { IsReduction (number (A.prime_of whole.now.of)) (A.maps whole.now.of) → IsReduction (number (A.prime_of whole.now.of)) (⟦<Shifted<A> as Reduction<S>>⟧.maps whole.now) }
{}

/// A reduction as far as degree N + 1 is one as far as degree N after a shift down, where h d is 0 on each big generator of degree 1.
pub fn shifted_down_meets<S: Source, A: Reduction<S>>(whole: &Shifted<A>)
where
    A::Big: Drop,
    A::Small: Drop,
    requires down { whole.now.up ≡ false }
    requires ends { (x : A.Big) → (A.maps whole.now.of).big.generator 1 x → SameTerms (number (A.prime_of whole.now.of)) (A.maps whole.now.of).big.same (after (A.maps whole.now.of).h (A.maps whole.now.of).big.d x) [] }
    ensures to { (N : ℕ) → IsReductionTo (number (A.prime_of whole.now.of)) (suc N) (A.maps whole.now.of) → IsReductionTo (number (A.prime_of whole.now.of)) N (⟦<Shifted<A> as Reduction<S>>⟧.maps whole.now) }
    ensures whole { IsReduction (number (A.prime_of whole.now.of)) (A.maps whole.now.of) → IsReduction (number (A.prime_of whole.now.of)) (⟦<Shifted<A> as Reduction<S>>⟧.maps whole.now) }
{}
