// Bundles of K(Z,1) by a 2-cocycle on a table.
ghost use Rattle.std.specs.Prelude.{ℕ, ◌<◌, List, ℤ};
ghost use Rattle.fp_field.specs.Chains.{Terms};
ghost use Rattle.fp_field.specs.Reduction.{IsComplex, IsSameComplex};
ghost use Rattle.spaces.specs.Tables.{Table, RowSimplex};
ghost use Rattle.spaces.specs.Spaces.{table, kz1, bundle, set_of};
ghost use Rattle.spaces.specs.Orders.{ordered};
ghost use Rattle.spaces.specs.Allowed.{IsAllowed};
ghost use Rattle.spaces.specs.EilenbergZilber.{linear, Pair};
ghost use Rattle.values.specs.Laws.{cells};
ghost use Rattle.values.specs.Rules.{bundle_twist};
ghost use Rattle.twist_laws.specs.TwistedComplexes.{on_pairs};
ghost use Rattle.twist_laws.specs.TwistedProducts.{bundle_pairs};
ghost use Rattle.twist_laws.specs.LeftDegrees.{LowersLeft, IsSeriesOf, transferred, LowersByTwo};

/// The cells of a bundle are the pairs of a simplex of the base and one of the fibre that no s_j is
/// taken on both parts of, and their differential is that of the pairs plus the twist. So the square of
/// the sum is 0 (May, Simplicial Objects, chapter VI, 31).
pub fn bundles_on_pairs()
    ensures { (p : ℕ) (t : Table) (c : List ℤ) → 0 < p → IsAllowed (bundle t c)
        → IsSameComplex p (on_pairs (cells p (bundle t c))) (bundle_pairs p t c) × IsComplex p (bundle_pairs p t c) }
{}

/// The twist of a bundle lowers the degree by 1 and the left dimension by at least 1, and so it does
/// before and after the flow.
pub fn bundles_lower_left()
    ensures { (p : ℕ) (t : Table) (c : List ℤ) → 0 < p → IsAllowed (bundle t c)
        → LowersLeft p (linear (ordered (table t))) (set_of (table t)).In (ordered kz1) (bundle_twist p t c) }
{}

/// Where P is the sum of the series 1 - k q + k q k q - .. of the flow k and the twist q, the
/// transferred difference AW q P EML lowers the degree by 1 and the left degree by at least 2: of the
/// terms of AW q EML that lower it by 1 two cancel, since K(Z,1) has one vertex (Shih 1962).
pub fn bundles_lower_by_two()
    ensures { (p : ℕ) (t : Table) (c : List ℤ) (P : Pair RowSimplex (List ℤ) → Terms (Pair RowSimplex (List ℤ)))
        → 0 < p → IsAllowed (bundle t c)
        → IsSeriesOf p (linear (ordered (table t))) (set_of (table t)).In (ordered kz1) (bundle_twist p t c) P
        → LowersByTwo p (linear (ordered (table t))) (set_of (table t)).In (ordered kz1)
        (transferred p (linear (ordered (table t))) (set_of (table t)).In (ordered kz1) (bundle_twist p t c) P) }
{}
