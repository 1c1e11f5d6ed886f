// Products, whose twist is zero.
ghost use Rattle.std.specs.Prelude.{◌≡◌, ℕ, ◌<◌, []};
ghost use Rattle.fp_field.specs.Chains.{Terms};
ghost use Rattle.fp_field.specs.Reduction.{IsComplex, IsSameComplex};
ghost use Rattle.spaces.specs.Spaces.{Space, product, Plain, set_of};
ghost use Rattle.spaces.specs.Orders.{ordered};
ghost use Rattle.spaces.specs.Allowed.{IsAllowed};
ghost use Rattle.spaces.specs.EilenbergZilber.{linear, Pair, Tensor};
ghost use Rattle.values.specs.Twists.{untwisted};
ghost use Rattle.values.specs.Laws.{cells};
ghost use Rattle.twist_laws.specs.TwistedComplexes.{on_pairs};
ghost use Rattle.twist_laws.specs.TwistedProducts.{product_pairs};
ghost use Rattle.twist_laws.specs.LeftDegrees.{LowersLeft, transferred};

/// The cells of a product are the pairs of simplices that no s_j is taken on both parts of, and their
/// differential is that of the pairs.
pub fn products_on_pairs()
    ensures { (p : ℕ) (a b : Space) → 0 < p → IsAllowed a → IsAllowed b
        → IsSameComplex p (on_pairs (cells p (product a b))) (product_pairs p a b) × IsComplex p (product_pairs p a b) }
{}

/// The twist of a product is 0, and so is the transferred difference.
pub fn products_are_untwisted()
    ensures lowers { (p : ℕ) (a b : Space) → 0 < p → LowersLeft p (linear (ordered a)) (set_of a).In (ordered b) untwisted }
    ensures transfers { (p : ℕ) (a b : Space) (P : Pair (Plain a) (Plain b) → Terms (Pair (Plain a) (Plain b))) (z : Tensor (Plain a) (Plain b))
        → 0 < p → transferred p (linear (ordered a)) (set_of a).In (ordered b) untwisted P z ≡ [] }
{}
