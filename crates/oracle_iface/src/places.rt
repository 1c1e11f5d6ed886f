// The places of valid keys, in the words of the code. Each function does nothing; its clauses are the
// law.
ghost use Rattle.oracle_iface.specs.KeyLaws.{IsOfSmall, IsOfBig, IsInDegree, small_row, big_row, IsAtRow, IsAtSmallSphere, IsAtSphere};
ghost use Rattle.oracle_iface.specs.Keys.{IsValidKey};
ghost use Rattle.oracle_iface.specs.declared.keys.Op.TheVariants.{Basis, Cycles};
ghost use Rattle.spaces.specs.Allowed.{IsAllowed, IsTable};
ghost use Rattle.std.specs.Prelude.{◌≡◌, ◌<◌, ◌≤◌, ℕ, suc, List};
ghost use Rattle.term_lang.specs.Rows.{rows_of};
ghost use Rattle.term_lang.specs.SpaceOf.{space_of};
ghost use Rattle.term_lang.specs.declared.tables.Row.{Row};
ghost use Rattle.term_lang.specs.declared.terms.Term.TheVariants.{Table, Sphere};
ghost use Rattle.values.specs.Ranks.{loopings};

use crate::keys::Key;

/// A valid key is about an allowed space, and one for small cells or for cycles is in a degree within
/// the bound.
pub fn degree_places(k: &Key)
    ensures allowed { IsValidKey k.now → IsAllowed (space_of k.now.term) }
    ensures basis { IsValidKey k.now → k.now.op ≡ Basis → IsInDegree k.now.place (loopings (space_of k.now.term)) }
    ensures cycles { IsValidKey k.now → k.now.op ≡ Cycles → IsInDegree k.now.place (suc (loopings (space_of k.now.term))) }
{}

/// A valid key about a table is in a degree, at a row as a small cell, or at a row as a cell.
pub fn table_places(k: &Key)
    ensures table { (rows : List Row) → IsValidKey k.now → k.now.term ≡ Table rows → IsTable (rows_of rows) }
    ensures basis { (rows : List Row) → IsValidKey k.now → k.now.term ≡ Table rows → k.now.op ≡ Basis → IsInDegree k.now.place 0 }
    ensures cycles { (rows : List Row) → IsValidKey k.now → k.now.term ≡ Table rows → k.now.op ≡ Cycles → IsInDegree k.now.place 1 }
    ensures small { (rows : List Row) → IsValidKey k.now → k.now.term ≡ Table rows → IsOfSmall k.now.op → IsAtRow small_row rows k.now.place }
    ensures big { (rows : List Row) → IsValidKey k.now → k.now.term ≡ Table rows → IsOfBig k.now.op → IsAtRow big_row rows k.now.place }
{}

/// A valid key about a sphere is in a degree, or at the vertex or the cell of the sphere, as small
/// cells or as cells.
pub fn sphere_places(k: &Key)
    ensures dim { (m : ℕ) → IsValidKey k.now → k.now.term ≡ Sphere m → (0 < m) × (m ≤ 16) }
    ensures basis { (m : ℕ) → IsValidKey k.now → k.now.term ≡ Sphere m → k.now.op ≡ Basis → IsInDegree k.now.place 0 }
    ensures cycles { (m : ℕ) → IsValidKey k.now → k.now.term ≡ Sphere m → k.now.op ≡ Cycles → IsInDegree k.now.place 1 }
    ensures small { (m : ℕ) → IsValidKey k.now → k.now.term ≡ Sphere m → IsOfSmall k.now.op → IsAtSmallSphere m k.now.place }
    ensures big { (m : ℕ) → IsValidKey k.now → k.now.term ≡ Sphere m → IsOfBig k.now.op → IsAtSphere m k.now.place }
{}
