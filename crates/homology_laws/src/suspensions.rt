// Suspensions.
ghost use Rattle.std.specs.Prelude.{ℕ, suc};
ghost use Rattle.fp_field.specs.Field.{number};
ghost use Rattle.fp_field.specs.Reduction.{IsReductionTo, IsReduction};
ghost use Rattle.spaces.specs.Spaces.{Space, suspension};
ghost use Rattle.spaces.specs.Allowed.{IsAllowed};
ghost use Rattle.values.specs.BaseLaws.{IsSimple};
ghost use Rattle.values.specs.Laws.{maps_of, ListsHomology, ValuesAreGivenBack};
ghost use Rattle.homology_laws.specs.Suspended.{innermost, IsGivenBack};

use fp_field::Prime;

/// The maps of a suspension are a reduction where those of its part are: in each degree from 2 on they are
/// those of the part one degree below, with the sign -1 at the differentials and at H. As far as degree
/// n + 2 they ask for the equations of the part as far as degree n + 1, and not less: that the small
/// differential is 0 in degree 1 of the part, which has one vertex, follows from its equations there. The
/// cycles of a suspension are then a homology list in each degree; so are those of a table, a sphere or
/// K(Z,1) that is suspended any number of times, where the maps of this innermost part are a reduction
/// (Rubio and Sergeraert, Constructive Homological Algebra and Applications, chapter 2; May, Simplicial
/// Objects, chapter VI, 27). It does nothing; its clauses are the law.
pub fn suspension_homology(p: Prime)
    ensures reduction_to { (a : Space) (n : ℕ) → IsAllowed (suspension a) → IsGivenBack (number p) (suspension a)
        → IsReductionTo (number p) (suc n) (maps_of (number p) a) → IsReductionTo (number p) (suc (suc n)) (maps_of (number p) (suspension a)) }
    ensures reduction { (a : Space) → IsAllowed (suspension a) → IsGivenBack (number p) (suspension a)
        → IsReduction (number p) (maps_of (number p) a) → IsReduction (number p) (maps_of (number p) (suspension a)) }
    ensures lists { (a : Space) (n : ℕ) → IsGivenBack (number p) (suspension a) → ValuesAreGivenBack (number p)
        → IsReductionTo (number p) (suc n) (maps_of (number p) a) → ListsHomology (number p) (suspension a) n }
    ensures given_back { (a : Space) → IsSimple a → IsGivenBack (number p) a }
    ensures simple { (a : Space) → IsAllowed a → IsSimple a → IsReduction (number p) (maps_of (number p) (innermost a))
        → IsReduction (number p) (maps_of (number p) a) }
    ensures list { (a : Space) (n : ℕ) → IsSimple a → IsReduction (number p) (maps_of (number p) (innermost a)) → ListsHomology (number p) a n }
{
    let _ = p;
}
