// What is computed over keys, in the words of the definitions. Each function does nothing; its clauses
// are the law.
ghost use Rattle.std.specs.Prelude.{◌≡◌, ◌<◌, ◌≤◌, ◌+◌, ◌++◌, ℕ, List, [], ◌∷◌, All, None, map};
ghost use Rattle.cells.specs.Order.{cell_cmp};
ghost use Rattle.cells.specs.Small.{small_cmp as code_cmp};
ghost use Rattle.cells.specs.declared.cells.Cell.{Cell as CodeCell};
ghost use Rattle.cells.specs.declared.cells.Cell.TheVariants.{Top};
ghost use Rattle.cells.specs.declared.cells.SmallCell.{SmallCell};
ghost use Rattle.echelons.specs.Echelon.{Vector};
ghost use Rattle.fp_field.specs.Chains.{Terms, EachKey, extend};
ghost use Rattle.fp_field.specs.Field.{number};
ghost use Rattle.fp_field.specs.Normal.{normal};
ghost use Rattle.fp_field.specs.declared.prime.Prime.{Prime};
ghost use Rattle.homology_rules.specs.Asking.{outcome_of, refusal_in, first_refusal};
ghost use Rattle.homology_rules.specs.CellKeys.{cell_key_of};
ghost use Rattle.homology_rules.specs.CycleVectors.{coordinates_over, is_cycle_over, cycle_vectors_over};
ghost use Rattle.homology_rules.specs.Degrees.{degree_key_of, cells_at, chains_at, vectors_at, keys_of_degree, keys_of_cycles, chains_of_cycles};
ghost use Rattle.homology_rules.specs.Held.{big_in, small_in};
ghost use Rattle.homology_rules.specs.Shown.{IsSmallShown, HasShownValues};
ghost use Rattle.homology_rules.specs.SmallKeys.{small_key_of};
ghost use Rattle.homology_rules.specs.Vectors.{terms_over, keys_of_vector, carried_of};
ghost use Rattle.oracle_iface.specs.KeyLaws.{IsNamed, IsProper, HasCells, IsShown, IsReadBack};
ghost use Rattle.oracle_iface.specs.Keys.{IsValidKey, key_of, quote_body, quote_basis, quote_chain, quote_small_chain, formal};
ghost use Rattle.oracle_iface.specs.SmallForms.{quote_small};
ghost use Rattle.oracle_iface.specs.Stands.{quote_outcome};
ghost use Rattle.oracle_iface.specs.declared.bodies.Outcome.TheVariants.{Value};
ghost use Rattle.oracle_iface.specs.declared.keys.Key.{Key};
ghost use Rattle.oracle_iface.specs.declared.keys.Op.TheVariants.{Cycles, F, G, H, SmallD};
ghost use Rattle.oracle_iface.specs.declared.keys.Place.TheVariants.{Degree};
ghost use Rattle.spaces.specs.Allowed.{IsAllowed, IsTable};
ghost use Rattle.spaces.specs.Orders.{ordered, by_degree};
ghost use Rattle.spaces.specs.SmallCells.{Small, small_cmp};
ghost use Rattle.spaces.specs.Spaces.{Plain, Space, table, sphere};
ghost use Rattle.spaces.specs.Tables.{Table as TableRows};
ghost use Rattle.term_lang.specs.Quote.{quote_cell};
ghost use Rattle.term_lang.specs.SpaceOf.{space_of};
ghost use Rattle.values.specs.Asks.{Ask, Answers, Cell, Right, ask, basis, small_d, f, g, h, cycles, on_chain, value_with};
ghost use Rattle.values.specs.BaseLaws.{IsSimple, vectors_of_cycles};
ghost use Rattle.values.specs.Cycles.{coordinates, is_small_cycle, cycle_vectors, terms_of, carried, rule_cycles};
ghost use Rattle.values.specs.Outcomes.{usual_limits, outcome};
ghost use Rattle.values.specs.Ranks.{IsValid, loopings, space_of as space_asked};
ghost use Rattle.values.specs.Values.{value};

/// The values of valid questions about allowed tables and spheres have only cells that the code has.
pub fn shown_laws()
    ensures tables { (p : ℕ) (t : TableRows) → IsTable t → HasShownValues p (table t) }
    ensures spheres { (p m : ℕ) → 0 < m → m ≤ 16 → HasShownValues p (sphere m) }
    ensures image_of_top { quote_chain (sphere 2) (value 3 (g (sphere 2) 1)) ≡ (Top 2, 1) ∷ [] }
    ensures boundary_of_top { value 3 (small_d (sphere 2) 1) ≡ [] }
    ensures listed { (p : ℕ) (a : Space) (n : ℕ) → IsAllowed a → n + loopings a ≤ 24 → All (IsSmallShown a) (value p (basis a n)) }
    ensures small_differentials { (p : ℕ) (a : Space) (n : ℕ) → IsAllowed a → n + loopings a ≤ 24 → HasShownValues p a
        → All (EachKey (IsSmallShown a)) (map (λ y. value p (small_d a y)) (value p (basis a n))) }
{}

/// Vectors over the code's small cells are the vectors over the small cells: coordinates of chains,
/// cycles, complements of boundaries, and the terms of a vector.
pub fn quote_laws()
    ensures coordinates { (a : Space) (p : ℕ) (ys : List (Small a)) (c : Terms (Small a)) → All (IsSmallShown a) ys → EachKey (IsSmallShown a) c
        → coordinates_over code_cmp p (quote_basis a ys) (quote_small_chain a c) ≡ coordinates p a ys c }
    ensures cycle { (a : Space) (p : ℕ) (ds : List (Terms (Small a))) (v : Vector) → All (EachKey (IsSmallShown a)) ds
        → is_cycle_over code_cmp p (map (quote_small_chain a) ds) v ≡ is_small_cycle p a ds v }
    ensures vectors { (a : Space) (p : ℕ) (ys : List (Small a)) (ds es : List (Terms (Small a)))
        → All (IsSmallShown a) ys → All (EachKey (IsSmallShown a)) ds → All (EachKey (IsSmallShown a)) es
        → cycle_vectors_over code_cmp p (quote_basis a ys) (map (quote_small_chain a) ds) (map (quote_small_chain a) es) ≡ cycle_vectors p a ys ds es }
    ensures terms { (a : Space) (p : ℕ) (ys : List (Small a)) (v : Vector) → terms_over (quote_basis a ys) v ≡ quote_small_chain a (terms_of p a ys v) }
{}

/// A map of the code's cells to chains that is at each cell of a chain the quote of what a map of the
/// definitions gives is so on the whole chain, in normal form.
pub fn quoted_sum_laws()
    ensures small_of_small { (a : Space) (p : ℕ) (answers : Answers) (image : SmallCell → Terms SmallCell) (t : Small a → Right (Terms (Small a))) (c : Terms (Small a))
        → EachKey (λ y. image (quote_small a y) ≡ quote_small_chain a (value_with answers (t y))) c
        → EachKey (λ y. EachKey (IsSmallShown a) (value_with answers (t y))) c
        → normal code_cmp p (extend image (quote_small_chain a c)) ≡ quote_small_chain a (value_with answers (on_chain (small_cmp a) p t c)) }
    ensures big_of_small { (a : Space) (p : ℕ) (answers : Answers) (image : SmallCell → Terms CodeCell) (t : Small a → Right (Terms (Cell a))) (c : Terms (Small a))
        → HasCells a → EachKey (λ y. image (quote_small a y) ≡ quote_chain a (value_with answers (t y))) c
        → EachKey (λ y. EachKey (IsShown a) (value_with answers (t y))) c
        → normal cell_cmp p (extend image (quote_small_chain a c)) ≡ quote_chain a (value_with answers (on_chain (by_degree (ordered a).cmp) p t c)) }
    ensures small_of_big { (a : Space) (p : ℕ) (answers : Answers) (image : CodeCell → Terms SmallCell) (t : Cell a → Right (Terms (Small a))) (c : Terms (Cell a))
        → EachKey (λ x. image (quote_cell a x.0 x.1) ≡ quote_small_chain a (value_with answers (t x))) c
        → EachKey (λ x. EachKey (IsSmallShown a) (value_with answers (t x))) c
        → normal code_cmp p (extend image (quote_chain a c)) ≡ quote_small_chain a (value_with answers (on_chain (small_cmp a) p t c)) }
    ensures big_of_big { (a : Space) (p : ℕ) (answers : Answers) (image : CodeCell → Terms CodeCell) (t : Cell a → Right (Terms (Cell a))) (c : Terms (Cell a))
        → HasCells a → EachKey (λ x. image (quote_cell a x.0 x.1) ≡ quote_chain a (value_with answers (t x))) c
        → EachKey (λ x. EachKey (IsShown a) (value_with answers (t x))) c
        → normal cell_cmp p (extend image (quote_chain a c)) ≡ quote_chain a (value_with answers (on_chain (by_degree (ordered a).cmp) p t c)) }
{}

/// The key of a question that is read back comes to the outcome of the question, and to its value where
/// it is not refused. So do the keys of small cells, of small differentials and of G in the space of a
/// key.
pub fn typed_key_laws()
    ensures same_outcome { (p : Prime) (q : Ask) → IsReadBack p q → outcome_of (key_of p q) ≡ quote_outcome p q (outcome usual_limits (number p) q) }
    ensures told { (p : Prime) (q : Ask) → IsReadBack p q → refusal_in (outcome_of (key_of p q)) ≡ None
        → outcome_of (key_of p q) ≡ Value (quote_body p q (value (number p) q)) }
    ensures valid { (p : Prime) (q : Ask) → IsNamed (space_asked q) → HasCells (space_asked q) → IsValid (number p) q
        → refusal_in (outcome_of (key_of p q)) ≡ None → outcome_of (key_of p q) ≡ Value (quote_body p q (value (number p) q)) }
    ensures named { (k : Key) (a : Space) → space_of k.term ≡ a → IsNamed a }
    ensures degree_key { (k : Key) (a : Space) (n : ℕ) → space_of k.term ≡ a → degree_key_of k n ≡ key_of k.prime (basis a n) }
    ensures small_d_key { (k : Key) (a : Space) (y : Small a) → space_of k.term ≡ a → small_key_of k SmallD (quote_small a y) ≡ key_of k.prime (small_d a y) }
    ensures g_key { (k : Key) (a : Space) (y : Small a) → space_of k.term ≡ a → small_key_of k G (quote_small a y) ≡ key_of k.prime (g a y) }
    ensures cells { (k : Key) (a : Space) (n : ℕ) → space_of k.term ≡ a → refusal_in (outcome_of (degree_key_of k n)) ≡ None
        → cells_at k n ≡ quote_basis a (value (number k.prime) (basis a n)) }
    ensures differential { (k : Key) (a : Space) (y : Small a) → space_of k.term ≡ a → IsProper a y
        → refusal_in (outcome_of (small_key_of k SmallD (quote_small a y))) ≡ None
        → (small_in (outcome_of (small_key_of k SmallD (quote_small a y)))).terms ≡ quote_small_chain a (value (number k.prime) (small_d a y)) }
    ensures image { (k : Key) (a : Space) (y : Small a) → space_of k.term ≡ a → IsProper a y
        → refusal_in (outcome_of (small_key_of k G (quote_small a y))) ≡ None
        → (big_in (outcome_of (small_key_of k G (quote_small a y)))).terms ≡ quote_chain a (value (number k.prime) (g a y)) }
{}

/// Where none of its keys is refused, what is computed over the keys of a degree is what the definitions
/// say: the small cells and their small differentials, G of a vector, the vectors of the cycles, and the
/// cycles.
pub fn typed_cycles_laws()
    ensures degree { (k : Key) (a : Space) (n : ℕ) → space_of k.term ≡ a → IsAllowed a → n + loopings a ≤ 24 → first_refusal (keys_of_degree k n) ≡ None
        → (cells_at k n ≡ quote_basis a (value (number k.prime) (basis a n)))
        × (chains_at k (cells_at k n) ≡ map (quote_small_chain a) (map (λ y. value (number k.prime) (small_d a y)) (value (number k.prime) (basis a n)))) }
    ensures vector { (k : Key) (a : Space) (n : ℕ) (v : Vector) → space_of k.term ≡ a → IsAllowed a → n + loopings a ≤ 24 → HasShownValues (number k.prime) a
        → first_refusal (keys_of_vector k (quote_basis a (value (number k.prime) (basis a n))) v) ≡ None
        → carried_of k (quote_basis a (value (number k.prime) (basis a n))) v
        ≡ formal k.prime (quote_chain a (value_with (value (number k.prime)) (carried (number k.prime) a (value (number k.prime) (basis a n)) v))) }
    ensures valid_key { (k : Key) (n : ℕ) → IsValidKey k → k.op ≡ Cycles → k.place ≡ Degree n → IsValid (number k.prime) (cycles (space_of k.term) n) }
    ensures vectors { (k : Key) (a : Space) (n : ℕ) → space_of k.term ≡ a → IsValid (number k.prime) (cycles a n) → HasShownValues (number k.prime) a
        → first_refusal (keys_of_cycles k n) ≡ None → vectors_at k n ≡ vectors_of_cycles (number k.prime) a n }
    ensures read { (k : Key) (a : Space) (n : ℕ) → space_of k.term ≡ a → IsValid (number k.prime) (cycles a n) → HasShownValues (number k.prime) a
        → first_refusal (keys_of_cycles k n) ≡ None
        → chains_of_cycles k n ≡ map (λ c. formal k.prime (quote_chain a c)) (value_with (value (number k.prime)) (rule_cycles (number k.prime) a n)) }
    ensures given_back { (k : Key) (a : Space) (n : ℕ) → space_of k.term ≡ a → IsValid (number k.prime) (cycles a n) → HasShownValues (number k.prime) a
        → value (number k.prime) (cycles a n) ≡ value_with (value (number k.prime)) (rule_cycles (number k.prime) a n)
        → first_refusal (keys_of_cycles k n) ≡ None
        → chains_of_cycles k n ≡ map (λ c. formal k.prime (quote_chain a c)) (value (number k.prime) (cycles a n)) }
    ensures simple { (k : Key) (a : Space) (n : ℕ) → space_of k.term ≡ a → IsSimple a → IsValid (number k.prime) (cycles a n) → HasShownValues (number k.prime) a
        → first_refusal (keys_of_cycles k n) ≡ None
        → chains_of_cycles k n ≡ map (λ c. formal k.prime (quote_chain a c)) (value (number k.prime) (cycles a n)) }
{}

/// Where no key of F or of H at the cells of a chain is refused, their sums over keys are those of the
/// definitions, and the sums of F, H and G have only cells that the code has.
pub fn typed_sum_laws()
    ensures f_key { (k : Key) (a : Space) (n : ℕ) (x : Plain a) → space_of k.term ≡ a → cell_key_of k F (quote_cell a n x) ≡ key_of k.prime (f a n x) }
    ensures h_key { (k : Key) (a : Space) (n : ℕ) (x : Plain a) → space_of k.term ≡ a → cell_key_of k H (quote_cell a n x) ≡ key_of k.prime (h a n x) }
    ensures f_terms { (k : Key) (a : Space) (n : ℕ) (x : Plain a) → space_of k.term ≡ a → HasCells a → IsValid (number k.prime) (f a n x)
        → refusal_in (outcome_of (cell_key_of k F (quote_cell a n x))) ≡ None
        → (small_in (outcome_of (cell_key_of k F (quote_cell a n x)))).terms ≡ quote_small_chain a (value (number k.prime) (f a n x)) }
    ensures h_terms { (k : Key) (a : Space) (n : ℕ) (x : Plain a) → space_of k.term ≡ a → HasCells a → IsValid (number k.prime) (h a n x)
        → refusal_in (outcome_of (cell_key_of k H (quote_cell a n x))) ≡ None
        → (big_in (outcome_of (cell_key_of k H (quote_cell a n x)))).terms ≡ quote_chain a (value (number k.prime) (h a n x)) }
    ensures f_sum { (k : Key) (a : Space) (z : Terms (Cell a)) → space_of k.term ≡ a → HasShownValues (number k.prime) a
        → EachKey (λ x. IsValid (number k.prime) (f a x.0 x.1)) z → first_refusal (map (λ t. cell_key_of k F t.0) (quote_chain a z)) ≡ None
        → normal code_cmp (number k.prime) (extend (λ x. (small_in (outcome_of (cell_key_of k F x))).terms) (quote_chain a z))
        ≡ quote_small_chain a (value_with (value (number k.prime)) (on_chain (small_cmp a) (number k.prime) (λ x. ask (f a x.0 x.1)) z)) }
    ensures h_sum { (k : Key) (a : Space) (z : Terms (Cell a)) → space_of k.term ≡ a → HasShownValues (number k.prime) a
        → EachKey (λ x. IsValid (number k.prime) (h a x.0 x.1)) z → first_refusal (map (λ t. cell_key_of k H t.0) (quote_chain a z)) ≡ None
        → normal cell_cmp (number k.prime) (extend (λ x. (big_in (outcome_of (cell_key_of k H x))).terms) (quote_chain a z))
        ≡ quote_chain a (value_with (value (number k.prime)) (on_chain (by_degree (ordered a).cmp) (number k.prime) (λ x. ask (h a x.0 x.1)) z)) }
    ensures f_shown { (p : ℕ) (a : Space) (z : Terms (Cell a)) → HasShownValues p a → EachKey (λ x. IsValid p (f a x.0 x.1)) z
        → EachKey (IsSmallShown a) (value_with (value p) (on_chain (small_cmp a) p (λ x. ask (f a x.0 x.1)) z)) }
    ensures h_shown { (p : ℕ) (a : Space) (z : Terms (Cell a)) → HasShownValues p a → EachKey (λ x. IsValid p (h a x.0 x.1)) z
        → EachKey (IsShown a) (value_with (value p) (on_chain (by_degree (ordered a).cmp) p (λ x. ask (h a x.0 x.1)) z)) }
    ensures g_shown { (p : ℕ) (a : Space) (n : ℕ) (v : Vector) → HasShownValues p a → IsAllowed a → n + loopings a ≤ 24
        → EachKey (IsShown a) (value_with (value p) (carried p a (value p (basis a n)) v)) }
    ensures sum { (a : Space) (p : ℕ) (c d : Terms (Cell a)) → HasCells a → EachKey (IsShown a) c → EachKey (IsShown a) d
        → normal cell_cmp p (quote_chain a c ++ quote_chain a d) ≡ quote_chain a (normal (by_degree (ordered a).cmp) p (c ++ d)) }
{}
