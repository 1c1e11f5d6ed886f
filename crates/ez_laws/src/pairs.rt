// The maps for two spaces. Bundles and path spaces take the same maps on base and fibre.
ghost use Rattle.std.specs.Prelude.{ℕ, ◌<◌};
ghost use Rattle.fp_field.specs.Reduction.{IsReduction};
ghost use Rattle.spaces.specs.Spaces.{Space, set_of};
ghost use Rattle.spaces.specs.Orders.{ordered};
ghost use Rattle.spaces.specs.Allowed.{IsAllowed};
ghost use Rattle.spaces.specs.EilenbergZilber.{linear};
ghost use Rattle.ez_laws.specs.Sides.{IsLeft, IsRight};
ghost use Rattle.ez_laws.specs.Instances.{product_maps, IsProductFlow, ProductsKeepLeft};

/// Each allowed space is a right part, and, with one term to each face, a left part.
pub fn spaces_are_sides()
    ensures { (p : ℕ) (a : Space) → 0 < p → IsAllowed a → IsRight (ordered a) × IsLeft p (linear (ordered a)) (set_of a).In }
{}

/// Alexander-Whitney, Eilenberg-Mac Lane and the flow are a reduction of the complex of pairs of two
/// spaces to their tensor complex, in all degrees (Eilenberg and Mac Lane 1953; Romero and Sergeraert,
/// Discrete Vector Fields).
pub fn product_pairs_meet()
    ensures { (p : ℕ) (a b : Space) → 0 < p → IsAllowed a → IsAllowed b → IsReduction p (product_maps p a b) }
{}

/// The flow is the one map that is 0 off the sources, with k(s) = u t + k(s - u d t) on a source s: its
/// rounds are enough.
pub fn product_flow_is_one()
    ensures { (p : ℕ) (a b : Space) → 0 < p → IsAllowed a → IsAllowed b → IsProductFlow p a b }
{}

/// No map raises the dimension of the left cell.
pub fn products_keep_left()
    ensures { (p : ℕ) (a b : Space) → 0 < p → IsAllowed a → IsAllowed b → ProductsKeepLeft p a b }
{}
