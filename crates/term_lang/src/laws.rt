// Laws of the definitions. Each function does nothing; its clauses are the law.
ghost use Rattle.std.specs.Prelude.{◌≡◌, ◌<◌, ◌≤◌, ℕ};
ghost use Rattle.std.specs.declared.cmp.Ordering.TheVariants.{Equal};
ghost use Rattle.spaces.specs.Allowed.{IsTable};
ghost use Rattle.spaces.specs.Simplicial.{IsSimplicial};
ghost use Rattle.spaces.specs.Spaces.{Space, table, sphere, set_of};
ghost use Rattle.spaces.specs.Tables.{sphere_rows, Table as TableRows};
ghost use Rattle.term_lang.specs.Degenerated.{WordsAct};
ghost use Rattle.term_lang.specs.SpaceOf.{space_of};
ghost use Rattle.term_lang.specs.TermOrder.{term_cmp};
ghost use Rattle.term_lang.specs.NormalForms.{HasMaskedForms, HasNormalForms, HasNormalCells};

use crate::terms::Term;

/// Terms that compare as equal are the same, and equal spaces come from equal terms.
pub fn one_term(t: &Term)
    ensures order { (u : Term) → term_cmp t.now u ≡ Equal → t.now ≡ u }
    ensures space { (u : Term) → space_of t.now ≡ space_of u → t.now ≡ u }
{}

/// Words of degeneracies before the simplices of a simplicial set follow the simplicial identities
/// (May, Simplicial Objects, chapter I, 1).
pub fn words_before_simplices()
    ensures { (X : Space) → IsSimplicial (set_of X) → WordsAct (set_of X) }
{}

/// The simplices of the code of a table are its simplices, each in one normal form, and stand in the
/// order of the space (Eilenberg and Zilber; May, Simplicial Objects, chapter I). Masks of any size
/// have the law in every degree, those of the code, with bits below 32, in degrees up to 32.
pub fn table_normal_forms()
    ensures masks { (t : TableRows) → IsTable t → (n : ℕ) → HasMaskedForms t n }
    ensures simplices { (t : TableRows) → IsTable t → (n : ℕ) → n ≤ 32 → HasNormalForms (table t) n }
    ensures cells { (t : TableRows) → IsTable t → (n : ℕ) → n ≤ 32 → HasNormalCells (table t) n }
{}

/// So are those of a sphere of dimension 1 or more.
pub fn sphere_normal_forms()
    ensures masks { (m : ℕ) → 0 < m → (n : ℕ) → HasMaskedForms (sphere_rows m) n }
    ensures simplices { (m : ℕ) → 0 < m → (n : ℕ) → n ≤ 32 → HasNormalForms (sphere m) n }
    ensures cells { (m : ℕ) → 0 < m → (n : ℕ) → n ≤ 32 → HasNormalCells (sphere m) n }
{}
