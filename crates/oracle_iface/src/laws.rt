// What keys, terms and small cells have to do with what they stand for. Each function does nothing;
// its clauses are the law.
ghost use Rattle.cells.specs.Order.{cell_cmp};
ghost use Rattle.cells.specs.Small.{degree_of_small, small_cmp as code_cmp};
ghost use Rattle.fp_field.specs.Chains.{Terms, Each};
ghost use Rattle.fp_field.specs.Field.{number};
ghost use Rattle.fp_field.specs.Normal.{normal};
ghost use Rattle.fp_field.specs.declared.prime.Prime.{Prime};
ghost use Rattle.oracle_iface.specs.KeyRanks.{rank_of};
ghost use Rattle.oracle_iface.specs.KeyLaws.{IsNamed, IsProper, IsCounted, HasCells, IsShown, IsReadBack, CyclesNeed};
ghost use Rattle.oracle_iface.specs.Keys.{key_of, needs_of, quote_chain, quote_small_chain, IsValidKey};
ghost use Rattle.oracle_iface.specs.SmallForms.{small_form, quote_small};
ghost use Rattle.oracle_iface.specs.Terms.{term_of, row_back};
ghost use Rattle.oracle_iface.specs.declared.keys.Key.{Key};
ghost use Rattle.oracle_iface.specs.declared.keys.Op.TheVariants.{Cycles};
ghost use Rattle.spaces.specs.Allowed.{Admits, IsTable};
ghost use Rattle.spaces.specs.Orders.{ordered, by_degree};
ghost use Rattle.spaces.specs.SmallCells.{Small, small_degree, small_cmp};
ghost use Rattle.spaces.specs.Spaces.{Space, Plain, table, sphere, product, suspension, kz1, bundle, loops, paths, kzm1, cyclic_bundle};
ghost use Rattle.spaces.specs.Tables.{Table as TableRows};
ghost use Rattle.std.specs.Prelude.{◌≡◌, ◌↔◌, ◌<◌, ℕ, ℤ, List, map, Contains};
ghost use Rattle.term_lang.specs.NormalForms.{HasNormalCells};
ghost use Rattle.term_lang.specs.Quote.{quote_cell};
ghost use Rattle.term_lang.specs.Rows.{rows_of};
ghost use Rattle.term_lang.specs.SpaceOf.{space_of};
ghost use Rattle.values.specs.Asks.{Ask, Cell, basis, small_d, f, g, h, cycles};
ghost use Rattle.values.specs.Ranks.{IsCell, IsValid, IsLower, space_of as space_asked};
ghost use Rattle.values.specs.Values.{value, needs};

use term_lang::Term;

/// Each term is the term of the space that it names, so that the space of a term is named.
pub fn term_laws(t: &Term)
    ensures back { term_of (space_of t.now) ≡ t.now }
    ensures named { IsNamed (space_of t.now) }
    ensures of_term { (a : Space) → a ≡ space_of t.now → IsNamed a }
{}

/// A space is named exactly where its parts are, the part of a bundle being the table of its base; a
/// table is where the code has its rows, and K(Z/m,1) and its bundles are not.
pub fn named_laws()
    ensures sphere { (m : ℕ) → IsNamed (sphere m) }
    ensures integers { IsNamed kz1 }
    ensures table { (t : TableRows) → IsNamed (table t) ↔ (rows_of (map row_back t) ≡ t) }
    ensures product { (a b : Space) → IsNamed (product a b) ↔ (IsNamed a × IsNamed b) }
    ensures suspension { (a : Space) → IsNamed (suspension a) ↔ IsNamed a }
    ensures bundle { (t : TableRows) (c : List ℤ) → IsNamed (bundle t c) ↔ IsNamed (table t) }
    ensures loops { (a : Space) → IsNamed (loops a) ↔ IsNamed a }
    ensures paths { (a : Space) → IsNamed (paths a) ↔ IsNamed a }
    ensures residues { (m : ℕ) → IsNamed (kzm1 m) → ⊥ }
    ensures cyclic_bundle { (t : TableRows) (m : ℕ) (c : List ℕ) → IsNamed (cyclic_bundle t m c) → ⊥ }
{}

/// The value of the code for a small cell stands for that small cell, where its rows are rows of the
/// space, as those of the small cells that a basis lists are.
pub fn small_cell_laws()
    ensures back { (a : Space) (y : Small a) → IsProper a y → small_form (quote_small a y) a ≡ y }
    ensures proper { (p : ℕ) (a : Space) (n : ℕ) (y : Small a) → Admits a → Contains (value p (basis a n)) y → IsProper a y }
    ensures listed { (p : ℕ) (a : Space) (n : ℕ) (y : Small a) → Admits a → Contains (value p (basis a n)) y
        → small_form (quote_small a y) a ≡ y }
{}

/// The values of the code for small cells have the degrees of the small cells and stand in their
/// order, below the greatest degree of the code, and so normal forms of chains are carried to normal
/// forms.
pub fn small_order_laws()
    ensures degree { (a : Space) (y : Small a) → IsCounted a y → degree_of_small (quote_small a y) ≡ small_degree a y }
    ensures order { (a : Space) (x y : Small a) → IsProper a x → IsProper a y → IsCounted a x → IsCounted a y
        → code_cmp (quote_small a x) (quote_small a y) ≡ small_cmp a x y }
    ensures chain { (a : Space) (p : ℕ) (c : Terms (Small a)) → Each (λ y. IsProper a y × IsCounted a y) c
        → normal code_cmp p (quote_small_chain a c) ≡ quote_small_chain a (normal (small_cmp a) p c) }
{}

/// Where the cells of the code are those of a space, as they are for tables and spheres, they stand in
/// the order of the space across degrees, and normal forms of chains are carried to normal forms.
pub fn cell_laws()
    ensures tables { (t : TableRows) → IsTable t → HasCells (table t) }
    ensures spheres { (m : ℕ) → 0 < m → HasCells (sphere m) }
    ensures order { (a : Space) → HasCells a → (x y : Cell a) → IsShown a x → IsShown a y
        → cell_cmp (quote_cell a x.0 x.1) (quote_cell a y.0 y.1) ≡ by_degree (ordered a).cmp x y }
    ensures chain { (a : Space) (p : ℕ) (c : Terms (Cell a)) → HasCells a → Each (IsShown a) c
        → normal cell_cmp p (quote_chain a c) ≡ quote_chain a (normal (by_degree (ordered a).cmp) p c) }
{}

/// The key of a question of a space that is named is read as that question: in a degree, at a small
/// cell whose rows are rows, or at a cell where the cells of the code are those of the space.
pub fn key_laws()
    ensures basis { (p : Prime) (a : Space) (n : ℕ) → IsNamed a → IsReadBack p (basis a n) }
    ensures cycles { (p : Prime) (a : Space) (n : ℕ) → IsNamed a → IsReadBack p (cycles a n) }
    ensures small_d { (p : Prime) (a : Space) (y : Small a) → IsNamed a → IsProper a y → IsReadBack p (small_d a y) }
    ensures g { (p : Prime) (a : Space) (y : Small a) → IsNamed a → IsProper a y → IsReadBack p (g a y) }
    ensures f { (p : Prime) (a : Space) (n : ℕ) (x : Plain a) → IsNamed a → HasNormalCells a n → IsCell a n x → IsReadBack p (f a n x) }
    ensures h { (p : Prime) (a : Space) (n : ℕ) (x : Plain a) → IsNamed a → HasNormalCells a n → IsCell a n x → IsReadBack p (h a n x) }
{}

/// So it is for valid questions at small cells of a named space, and for each valid question where the
/// cells of the code are those of the space, as for named tables and spheres. The key of a valid
/// question that is read back is valid.
pub fn valid_key_laws()
    ensures small_d { (p : Prime) (a : Space) (y : Small a) → IsNamed a → IsValid (number p) (small_d a y) → IsReadBack p (small_d a y) }
    ensures g { (p : Prime) (a : Space) (y : Small a) → IsNamed a → IsValid (number p) (g a y) → IsReadBack p (g a y) }
    ensures back { (p : Prime) (q : Ask) → IsNamed (space_asked q) → HasCells (space_asked q) → IsValid (number p) q → IsReadBack p q }
    ensures table { (p : Prime) (q : Ask) (t : TableRows) → space_asked q ≡ table t → IsNamed (table t) → IsValid (number p) q → IsReadBack p q }
    ensures sphere { (p : Prime) (q : Ask) (m : ℕ) → space_asked q ≡ sphere m → IsValid (number p) q → IsReadBack p q }
    ensures valid { (p : Prime) (q : Ask) → IsReadBack p q → IsValid (number p) q → IsValidKey (key_of p q) }
{}

/// What the cycles of a degree need, and that each need of a valid key of cycles is read back.
pub fn cycles_laws()
    ensures needs { (p : ℕ) (a : Space) (n : ℕ) (q : Ask) → Contains (needs p (cycles a n)) q → CyclesNeed p a n q }
    ensures back { (k : Key) (q : Ask) → IsValidKey k → k.op ≡ Cycles → Contains (needs_of k) q → IsReadBack k.prime q }
{}

/// A valid question of lower rank has a lower number, so that questions are answered in finitely many
/// steps.
pub fn rank_laws()
    ensures { (p : ℕ) (j k : Ask) → IsValid p j → IsLower p j k → rank_of j < rank_of k }
{}
