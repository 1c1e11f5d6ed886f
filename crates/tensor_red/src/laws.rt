// The tensor product of two reductions meets the equations of a reduction. The law has an empty body, and its clause quotes the maps of
// the tensor product itself.
ghost use Rattle.std.specs.Prelude.{◌≡◌, ◌+◌, ◌≤◌, ℕ};
ghost use Rattle.fp_field.specs.Field.{number};
ghost use Rattle.fp_field.specs.Reduction.{IsReductionTo, IsReduction};

use crate::reduction::TensorReduction;
use chain_core::Source;
use reduct_laws::Reduction;

/// A tensor product is a reduction where its parts are. It is one as far as degree N where the left part is one as far as degree N, the
/// right part as far as degree M, all generators of the left part have degree at least L, and N ≤ L + M.
pub fn tensor_meets<S: Source, A: Reduction<S>, B: Reduction<S, Stop = A::Stop>>(
    whole: &TensorReduction<A, B>,
)
where
    A::Big: Clone + Drop,
    A::Small: Clone + Drop,
    B::Big: Clone + Drop,
    B::Small: Clone + Drop,
    requires prime { B.prime_of whole.now.right ≡ A.prime_of whole.now.left }
    ensures to { (N M L : ℕ) → N ≤ L + M → ((k : ℕ) (x : A.Big) → (A.maps whole.now.left).big.generator k x → L ≤ k) → ((k : ℕ) (y : A.Small) → (A.maps whole.now.left).small.generator k y → L ≤ k) → IsReductionTo (number (A.prime_of whole.now.left)) N (A.maps whole.now.left) → IsReductionTo (number (B.prime_of whole.now.right)) M (B.maps whole.now.right) → IsReductionTo (number (A.prime_of whole.now.left)) N (⟦<TensorReduction<A, B> as Reduction<S>>⟧.maps whole.now) }
    ensures whole { IsReduction (number (A.prime_of whole.now.left)) (A.maps whole.now.left) → IsReduction (number (B.prime_of whole.now.right)) (B.maps whole.now.right) → IsReduction (number (A.prime_of whole.now.left)) (⟦<TensorReduction<A, B> as Reduction<S>>⟧.maps whole.now) }
{}
