// Tables and spheres.
ghost use Rattle.std.specs.Prelude.{ℕ, ◌<◌};
ghost use Rattle.fp_field.specs.Field.{number};
ghost use Rattle.fp_field.specs.Reduction.{IsReduction};
ghost use Rattle.spaces.specs.Tables.{Table};
ghost use Rattle.spaces.specs.Spaces.{table, sphere};
ghost use Rattle.spaces.specs.Allowed.{IsTable};
ghost use Rattle.values.specs.Laws.{maps_of, ListsHomology};

use fp_field::Prime;

/// The maps of a table are a reduction of its cells to its rows, and its listed cycles are a homology
/// list in each degree. It does nothing; its clauses are the law.
pub fn table_homology(p: Prime)
    ensures reduction { (t : Table) → IsTable t → IsReduction (number p) (maps_of (number p) (table t)) }
    ensures list { (t : Table) (n : ℕ) → ListsHomology (number p) (table t) n }
{
    let _ = p;
}

/// The maps of a sphere of dimension 1 or more are a reduction of its cells to its two rows, and its
/// listed cycles are a homology list in each degree. It does nothing; its clauses are the law.
pub fn sphere_homology(p: Prime)
    ensures reduction { (m : ℕ) → 0 < m → IsReduction (number p) (maps_of (number p) (sphere m)) }
    ensures list { (m n : ℕ) → ListsHomology (number p) (sphere m) n }
{
    let _ = p;
}
