// Laws of the definitions. Each function does nothing; its clauses are the law.
ghost use Rattle.std.specs.Prelude.{◌≡◌, ℕ, ◌-◌, ◌≤◌, max, ℤ, List};
ghost use Rattle.spaces.specs.Allowed.{IsAllowed, Admits};
ghost use Rattle.spaces.specs.Spaces.{Space, table, product, suspension, kz1, bundle};
ghost use Rattle.spaces.specs.Tables.{Table};
ghost use Rattle.cells.specs.declared.cells.Simplex.{Simplex};
ghost use Rattle.term_lang.specs.Belongs.{IsSimplex};
ghost use Rattle.term_lang.specs.Forms.{form};
ghost use Rattle.term_lang.specs.NormalForms.{HasNormalForms, HasNormalCells};
ghost use Rattle.normal_forms.specs.Built.{IsBuilt};
ghost use Rattle.normal_forms.specs.Paired.{IsPaired, HasParts};
ghost use Rattle.oracle_iface.specs.CodeSizes.{cell_integer, cell_letters};
ghost use Rattle.oracle_iface.specs.KeyLaws.{HasCells};

/// The cells of the code of a suspension are its non-degenerate simplices, in the order of the space, where
/// those of the part are one degree below (May, Simplicial Objects, chapter VI, 27).
pub fn suspension_normal_forms()
    ensures { (a : Space) → Admits (suspension a) → (n : ℕ) → n ≤ 32 → HasNormalCells a (n - 1) → HasNormalCells (suspension a) n }
{}

/// The simplices of the code of an allowed space that is built are its simplices, each in one
/// normal form, and stand in the order of the space, in the degrees that masks of the code reach; and so
/// are its cells (Eilenberg and Zilber; May, Simplicial Objects, chapter I). In a product and in a circle
/// bundle a cell is a pair of two simplices of one degree, in their normal forms, without a common
/// degeneracy, also where the first face is twisted.
pub fn built_normal_forms()
    ensures simplices { (X : Space) → IsAllowed X → IsBuilt X → (n : ℕ) → n ≤ 32 → HasNormalForms X n }
    ensures cells { (X : Space) → IsAllowed X → IsBuilt X → HasCells X }
{}

/// The pair of simplices of degree n of two spaces is a simplex of the product, and stands for the pair of
/// the two (May, Simplicial Objects, chapter I); and each simplex of the product is the pair of such two.
pub fn pairs_of_products()
    ensures paired { (a b : Space) → IsAllowed a → IsBuilt a → IsAllowed b → IsBuilt b → (n : ℕ) → n ≤ 32 → (x y z : Simplex) → IsPaired x y z
        → IsSimplex a n x → IsSimplex b n y → IsSimplex (product a b) n z × (form z (product a b) ≡ (form x a, form y b)) }
    ensures parts { (a b : Space) → IsAllowed a → IsBuilt a → IsAllowed b → IsBuilt b → (n : ℕ) → n ≤ 32 → (x y z : Simplex) → IsPaired x y z
        → IsSimplex (product a b) n z → IsSimplex a n x × IsSimplex b n y × (form z (product a b) ≡ (form x a, form y b)) }
    ensures have_parts { (a b : Space) (n : ℕ) → n ≤ 32 → (z : Simplex) → IsSimplex (product a b) n z → HasParts z }
{}

/// The same of a circle bundle, whose simplices are pairs of simplices of its table and of K(Z,1), with
/// the degeneracies of the product (May, Simplicial Objects, chapter IV, 18).
pub fn pairs_of_bundles()
    ensures paired { (t : Table) (c : List ℤ) → IsAllowed (bundle t c) → (n : ℕ) → n ≤ 32 → (x y z : Simplex) → IsPaired x y z
        → IsSimplex (table t) n x → IsSimplex kz1 n y → IsSimplex (bundle t c) n z × (form z (bundle t c) ≡ (form x (table t), form y kz1)) }
    ensures parts { (t : Table) (c : List ℤ) → IsAllowed (bundle t c) → (n : ℕ) → n ≤ 32 → (x y z : Simplex) → IsPaired x y z
        → IsSimplex (bundle t c) n z → IsSimplex (table t) n x × IsSimplex kz1 n y × (form z (bundle t c) ≡ (form x (table t), form y kz1)) }
    ensures have_parts { (t : Table) (c : List ℤ) (n : ℕ) → n ≤ 32 → (z : Simplex) → IsSimplex (bundle t c) n z → HasParts z }
{}

/// The integers and the words of a pair are those of the two simplices.
pub fn pair_sizes()
    ensures integers { (x y z : Simplex) → IsPaired x y z → cell_integer z.cell ≡ max (cell_integer x.cell) (cell_integer y.cell) }
    ensures letters { (x y z : Simplex) → IsPaired x y z → cell_letters z.cell ≡ max (cell_letters x.cell) (cell_letters y.cell) }
{}
