// K(Z,1).
ghost use Rattle.std.specs.Prelude.{ℕ};
ghost use Rattle.fp_field.specs.Field.{number};
ghost use Rattle.fp_field.specs.Reduction.{IsReduction};
ghost use Rattle.spaces.specs.Spaces.{kz1};
ghost use Rattle.values.specs.Laws.{maps_of, ListsHomology};

use fp_field::Prime;

/// The maps of K(Z,1) are a reduction of its cells, the lists of integers without a 0, to the two cells
/// of the circle, on every list, and its listed cycles are a homology list in each degree (Eilenberg
/// and Mac Lane, On the groups H(Pi,n), I). It does nothing; its clauses are the law.
pub fn integers_homology(p: Prime)
    ensures reduction { IsReduction (number p) (maps_of (number p) kz1) }
    ensures list { (n : ℕ) → ListsHomology (number p) kz1 n }
{
    let _ = p;
}
