// Products and bundles as reductions.
ghost use Rattle.std.specs.Prelude.{◌≡◌, ◌≤◌, ℕ, suc, List, ℤ};
ghost use Rattle.fp_field.specs.Field.{number};
ghost use Rattle.fp_field.specs.Reduction.{IsReductionTo, IsReduction};
ghost use Rattle.spaces.specs.Tables.{Table};
ghost use Rattle.spaces.specs.Spaces.{Space, product, bundle, loops, paths, kzm1, cyclic_bundle};
ghost use Rattle.spaces.specs.Allowed.{IsAllowed};
ghost use Rattle.values.specs.Asks.{Ask, value_with};
ghost use Rattle.values.specs.Values.{value, value_at, right_side, depth_of};
ghost use Rattle.values.specs.Outcomes.{Limits, outcome, outcome_at, made_with};
ghost use Rattle.values.specs.BaseLaws.{NeedsAreBelow};
ghost use Rattle.values.specs.Ranks.{space_of, IsValid};
ghost use Rattle.values.specs.Laws.{maps_of, ListsHomology, ValuesAreGivenBack};
ghost use Rattle.homology_laws.specs.Suspended.{IsGivenBack};
ghost use Rattle.twist_laws.specs.Assembled.{IsLoopless, IsAssembled};

use fp_field::Prime;

/// The maps of a product are a reduction of its cells to the pairs of small cells where those of its two
/// parts are, and as far as these are: the Eilenberg-Zilber reduction of the pairs to the tensors, and
/// then the tensor product of the reductions of the parts (Eilenberg and Zilber 1953; Rubio and
/// Sergeraert, Constructive Homological Algebra and Applications, chapter 3). The cycles of a product
/// are then a homology list. It does nothing; its clauses are the law.
pub fn product_reduction(p: Prime)
    ensures reduction_to { (a b : Space) (n : ℕ) → IsAllowed (product a b) → IsGivenBack (number p) (product a b)
        → IsReductionTo (number p) n (maps_of (number p) a) → IsReductionTo (number p) n (maps_of (number p) b)
        → IsReductionTo (number p) n (maps_of (number p) (product a b)) }
    ensures reduction { (a b : Space) → IsAllowed (product a b) → IsGivenBack (number p) (product a b)
        → IsReduction (number p) (maps_of (number p) a) → IsReduction (number p) (maps_of (number p) b) → IsReduction (number p) (maps_of (number p) (product a b)) }
    ensures lists { (a b : Space) (n : ℕ) → IsGivenBack (number p) (product a b) → ValuesAreGivenBack (number p)
        → IsReductionTo (number p) (suc n) (maps_of (number p) a) → IsReductionTo (number p) (suc n) (maps_of (number p) b)
        → ListsHomology (number p) (product a b) n }
{
    let _ = p;
}

/// The maps of a bundle of K(Z,1) on a table are a reduction: the Eilenberg-Zilber reduction perturbed by
/// the twist, and then the tensor product of the reductions of base and fibre, perturbed by what the
/// twist has become (Shih 1962; Brown, Twisted tensor products; Rubio and Sergeraert, chapter 3). Its
/// listed cycles are a homology list in each degree. It does nothing; its clauses are the law.
pub fn bundle_reduction(p: Prime)
    ensures reduction { (t : Table) (c : List ℤ) → IsAllowed (bundle t c) → IsReduction (number p) (maps_of (number p) (bundle t c)) }
    ensures list { (t : Table) (c : List ℤ) (n : ℕ) → ListsHomology (number p) (bundle t c) n }
{
    let _ = p;
}

/// Path spaces and bundles of K(Z/m,1) on a table are reductions where the fibre is, and as far as it is:
/// the same two perturbations, with the twist of the letters of the loop group or of a cocycle modulo m
/// (May, Simplicial Objects, chapter VI, 26; Rubio and Sergeraert, chapter 3). It does nothing; its
/// clauses are the law.
pub fn twisted_reduction(p: Prime)
    ensures paths_to { (a : Space) (n : ℕ) → IsAllowed (paths a) → IsGivenBack (number p) (paths a)
        → IsReductionTo (number p) n (maps_of (number p) a) → IsReductionTo (number p) n (maps_of (number p) (loops a))
        → IsReductionTo (number p) n (maps_of (number p) (paths a)) }
    ensures cyclic_to { (t : Table) (m : ℕ) (c : List ℕ) (n : ℕ) → IsAllowed (cyclic_bundle t m c)
        → IsReductionTo (number p) n (maps_of (number p) (kzm1 m)) → IsReductionTo (number p) n (maps_of (number p) (cyclic_bundle t m c)) }
    ensures cyclic_list { (t : Table) (m : ℕ) (c : List ℕ) (n : ℕ)
        → IsReductionTo (number p) (suc n) (maps_of (number p) (kzm1 m)) → ListsHomology (number p) (cyclic_bundle t m c) n }
{
    let _ = p;
}

/// Each value of a space without loop and path spaces is what its right side gives, each outcome under
/// limits is made by its right side, and a depth beyond that of the question changes neither.
pub fn loopless_values()
    ensures given_back { (p : ℕ) (k : Ask) → IsLoopless (space_of k) → value p k ≡ value_with (value p) (right_side p k) }
    ensures deeper { (p d : ℕ) (k : Ask) → IsLoopless (space_of k) → depth_of k ≤ d → value_at p d k ≡ value p k }
    ensures outcome_back { (m : Limits) (p : ℕ) (k : Ask) → IsLoopless (space_of k) → outcome m p k ≡ made_with m p (outcome m p) k }
    ensures outcome_deeper { (m : Limits) (p d : ℕ) (k : Ask) → IsLoopless (space_of k) → depth_of k ≤ d → outcome_at m p d k ≡ outcome m p k }
    ensures space { (p : ℕ) (a : Space) → IsLoopless a → IsGivenBack p a }
{}

/// What a valid question about a product, a bundle or a path space needs is valid, of lower rank and of
/// less depth, where the maps of the two parts have their degrees, as those of a reduction have: the
/// chains on the way are of pairs and tensors of one degree. So it is with each space that is made of
/// tables, spheres, K(Z,1) and its bundles by products and suspensions. It does nothing; its clauses are
/// the law.
pub fn fibred_needs(p: Prime)
    ensures products { (a b : Space) (k : Ask) → space_of k ≡ product a b → IsReductionTo (number p) 0 (maps_of (number p) a)
        → IsReductionTo (number p) 0 (maps_of (number p) b) → IsValid (number p) k → NeedsAreBelow (number p) k }
    ensures path_spaces { (a : Space) (k : Ask) → space_of k ≡ paths a → IsReductionTo (number p) 0 (maps_of (number p) a)
        → IsReductionTo (number p) 0 (maps_of (number p) (loops a)) → IsValid (number p) k → NeedsAreBelow (number p) k }
    ensures assembled { (k : Ask) → IsAssembled (space_of k) → IsValid (number p) k → NeedsAreBelow (number p) k }
    ensures loopless { (k : Ask) → IsLoopless (space_of k) → ((m : ℕ) → IsAllowed (kzm1 m) → IsReduction (number p) (maps_of (number p) (kzm1 m)))
        → IsValid (number p) k → NeedsAreBelow (number p) k }
{
    let _ = p;
}

/// The maps of each space that is made of tables, spheres, K(Z,1) and its bundles by products and
/// suspensions are a reduction, and its listed cycles are a homology list in each degree. Where the maps
/// of each K(Z/m,1) are one, so are those of every space without loop and path spaces. It does nothing;
/// its clauses are the law.
pub fn assembled_homology(p: Prime)
    ensures reduction { (a : Space) → IsAllowed a → IsAssembled a → IsReduction (number p) (maps_of (number p) a) }
    ensures list { (a : Space) (n : ℕ) → IsAssembled a → ListsHomology (number p) a n }
    ensures loopless { (a : Space) → IsAllowed a → IsLoopless a → ((m : ℕ) → IsAllowed (kzm1 m) → IsReduction (number p) (maps_of (number p) (kzm1 m)))
        → IsReduction (number p) (maps_of (number p) a) }
    ensures loopless_list { (a : Space) (n : ℕ) → IsLoopless a → ((m : ℕ) → IsAllowed (kzm1 m) → IsReduction (number p) (maps_of (number p) (kzm1 m)))
        → ListsHomology (number p) a n }
{
    let _ = p;
}
