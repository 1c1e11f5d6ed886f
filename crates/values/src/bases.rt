// The small cells of every space: their degrees, their order, which they are, and what answers about them and about cycles need.
ghost use Rattle.std.specs.Prelude.{◌≡◌, ◌↔◌, ◌<◌, ◌≤◌, ℕ, suc, false, List, [], ◌∷◌, length, Contains};
ghost use Rattle.std.specs.Cmp.{IsTotalOrder, IsEquivalence};
ghost use Rattle.std.specs.List.{AllPairs};
ghost use Rattle.std.specs.Ordering.{is_eq};
ghost use Rattle.std.specs.declared.cmp.Ordering.TheVariants.{Less, Equal};
ghost use Rattle.spaces.specs.Tables.{Table};
ghost use Rattle.spaces.specs.Spaces.{Space, table, sphere};
ghost use Rattle.spaces.specs.SmallCells.{Small, small_degree, small_cmp, row_dim};
ghost use Rattle.values.specs.Asks.{Ask, basis, cycles, value_with};
ghost use Rattle.values.specs.BaseLaws.{IsSmall, NeedsAreBelow, HasNoParts, IsSuspension, IsSimple, AtCells, carried_cycles, needs_of_cycles};
ghost use Rattle.values.specs.Cycles.{rule_cycles};
ghost use Rattle.values.specs.Laws.{ValuesAreGivenBack};
ghost use Rattle.values.specs.Outcomes.{Limits, AreOutcomes, outcome, outcome_at, made_with};
ghost use Rattle.values.specs.Ranks.{IsValid, NeedsAreLower, space_of, is_cycles};
ghost use Rattle.values.specs.Rules.{rule_basis};
ghost use Rattle.values.specs.Values.{value, value_at, right_side, needs, depth, depth_of};

/// The order of the small cells of each space is total and tells any two apart, and it puts lower degrees first. So
/// to compare as equal is an equivalence.
pub fn small_order_laws()
    ensures total { (a : Space) → IsTotalOrder (small_cmp a) }
    ensures itself { (a : Space) (x : Small a) → small_cmp a x x ≡ Equal }
    ensures one_cell { (a : Space) (x y : Small a) → small_cmp a x y ≡ Equal → x ≡ y }
    ensures equivalence { (a : Space) → IsEquivalence (λ (x y : Small a). is_eq (small_cmp a x y)) }
    ensures lower_first { (a : Space) (x y : Small a) → small_degree a x < small_degree a y → small_cmp a x y ≡ Less }
{}

/// The small cells of degree n of a space, over every F_p: each has the degree n, they rise in their order, so no two
/// are the same, and they are exactly those of the closed form (Rubio and Sergeraert, Constructive Homological
/// Algebra and Applications, chapters 2 and 3). No space and no degree is left out.
pub fn basis_laws()
    ensures degree { (p : ℕ) (a : Space) (n : ℕ) (y : Small a) → Contains (value p (basis a n)) y → small_degree a y ≡ n }
    ensures rising { (p : ℕ) (a : Space) (n : ℕ) → AllPairs (λ x y. small_cmp a x y ≡ Less) (value p (basis a n)) }
    ensures different { (p : ℕ) (a : Space) (n : ℕ) → AllPairs (λ x y. x ≡ y → ⊥) (value p (basis a n)) }
    ensures members { (p : ℕ) (a : Space) (n : ℕ) (y : Small a)
        → Contains (value p (basis a n)) y ↔ ((small_degree a y ≡ n) × IsSmall a y) }
{}

/// The small cells of a table are its rows, and those of a sphere of dimension m from 1 on are the vertex, row 0, and
/// the cell, row 1.
pub fn row_basis_laws()
    ensures rows { (p : ℕ) (t : Table) (n r : ℕ)
        → Contains (value p (basis (table t) n)) r ↔ ((row_dim t r ≡ n) × (r < length t)) }
    ensures vertex { (p m : ℕ) → 0 < m → value p (basis (sphere m) 0) ≡ 0 ∷ [] }
    ensures cell { (p m : ℕ) → 0 < m → value p (basis (sphere m) m) ≡ 1 ∷ [] }
    ensures no_other { (p m n : ℕ) → (n ≡ 0 → ⊥) → (n ≡ m → ⊥) → value p (basis (sphere m) n) ≡ [] }
{}

/// The small cells of every space are given back by their rule, and so are the outcomes under limits; a depth beyond
/// that of the space and the degree changes nothing, and neither does the prime. What they need is valid, of lower rank
/// and of less depth.
pub fn basis_depth_laws()
    ensures given_back { (p : ℕ) (a : Space) (n : ℕ) → value p (basis a n) ≡ value_with (value p) (rule_basis a n) }
    ensures deeper { (p d : ℕ) (a : Space) (n : ℕ) → depth a n ≤ d → value_at p d (basis a n) ≡ value p (basis a n) }
    ensures any_prime { (p q : ℕ) (a : Space) (n : ℕ) → value p (basis a n) ≡ value q (basis a n) }
    ensures outcome_back { (m : Limits) (p : ℕ) (a : Space) (n : ℕ)
        → outcome m p (basis a n) ≡ made_with m p (outcome m p) (basis a n) }
    ensures outcome_deeper { (m : Limits) (p d : ℕ) (a : Space) (n : ℕ) → depth a n ≤ d
        → outcome_at m p d (basis a n) ≡ outcome m p (basis a n) }
    ensures below { (p : ℕ) (a : Space) (n : ℕ) → IsValid p (basis a n) → NeedsAreBelow p (basis a n) }
{}

/// The cycles of a space in degree n: what their rule gives, what they need, in order, and that this is valid, of lower
/// rank and of less depth. Their value and their outcome are given back by their rule, where the answers about the small
/// cells of degrees n and n + 1 are found at the depth of degree n + 1.
pub fn cycles_laws()
    ensures rule { (p : ℕ) (a : Space) (n : ℕ) → value_with (value p) (rule_cycles p a n) ≡ carried_cycles p a n }
    ensures needed { (p : ℕ) (a : Space) (n : ℕ) → needs p (cycles a n) ≡ needs_of_cycles p a n }
    ensures below { (p : ℕ) (a : Space) (n : ℕ) → IsValid p (cycles a n) → NeedsAreBelow p (cycles a n) }
    ensures given_back { (p : ℕ) (a : Space) (n : ℕ)
        → AtCells p a n (λ k. value_at p (depth a (suc n)) k ≡ value p k)
        → value p (cycles a n) ≡ value_with (value p) (rule_cycles p a n) }
    ensures outcome_back { (m : Limits) (p : ℕ) (a : Space) (n : ℕ)
        → AtCells p a n (λ k. outcome_at m p (depth a (suc n)) k ≡ outcome m p k)
        → outcome m p (cycles a n) ≡ made_with m p (outcome m p) (cycles a n) }
{}

/// Questions about tables, spheres, K(Z,1) and K(Z/m,1), which have no parts, and about suspensions. Those about a space
/// without parts need nothing, but for cycles. What a valid question about any of these spaces needs is valid, of lower
/// rank and of less depth.
pub fn needs_laws()
    ensures no_needs { (p : ℕ) (k : Ask) → HasNoParts (space_of k) → is_cycles k ≡ false → needs p k ≡ [] }
    ensures no_parts { (p : ℕ) (k : Ask) → HasNoParts (space_of k) → IsValid p k → NeedsAreBelow p k }
    ensures suspensions { (p : ℕ) (k : Ask) → IsSuspension (space_of k) → IsValid p k → NeedsAreBelow p k }
{}

/// Spaces without parts, suspended any number of times: all values and outcomes are given back by their rules, at any
/// greater depth too.
pub fn simple_space_laws()
    ensures given_back { (p : ℕ) (k : Ask) → IsSimple (space_of k) → value p k ≡ value_with (value p) (right_side p k) }
    ensures outcome_back { (m : Limits) (p : ℕ) (k : Ask) → IsSimple (space_of k)
        → outcome m p k ≡ made_with m p (outcome m p) k }
    ensures deeper { (p d : ℕ) (k : Ask) → IsSimple (space_of k) → depth_of k ≤ d → value_at p d k ≡ value p k }
    ensures outcome_deeper { (m : Limits) (p d : ℕ) (k : Ask) → IsSimple (space_of k) → depth_of k ≤ d
        → outcome_at m p d k ≡ outcome m p k }
    ensures below { (p : ℕ) (k : Ask) → IsSimple (space_of k) → IsValid p k → NeedsAreBelow p k }
{}

/// If what each valid question needs is valid, of lower rank and of less depth, then ranks fall along needs, and the
/// values and the outcomes of valid questions are given back by their rules, at any greater depth too.
pub fn below_laws()
    ensures ranks { (p : ℕ) → ((k : Ask) → IsValid p k → NeedsAreBelow p k) → NeedsAreLower p }
    ensures values { (p : ℕ) → ((k : Ask) → IsValid p k → NeedsAreBelow p k) → ValuesAreGivenBack p }
    ensures outcomes { (m : Limits) (p : ℕ) → ((k : Ask) → IsValid p k → NeedsAreBelow p k)
        → AreOutcomes m p (IsValid p) (outcome m p) }
    ensures deeper { (p : ℕ) → ((k : Ask) → IsValid p k → NeedsAreBelow p k)
        → (k : Ask) → IsValid p k → (d : ℕ) → depth_of k ≤ d → value_at p d k ≡ value p k }
    ensures outcome_deeper { (m : Limits) (p : ℕ) → ((k : Ask) → IsValid p k → NeedsAreBelow p k)
        → (k : Ask) → IsValid p k → (d : ℕ) → depth_of k ≤ d → outcome_at m p d k ≡ outcome m p k }
{}
