// How many cycles a homology list has.
ghost use Rattle.std.specs.Prelude.{◌≡◌, ℕ, zero, suc, ◌+◌, List, [], length};
ghost use Rattle.fp_field.specs.Field.{number};
ghost use Rattle.fp_field.specs.Chains.{Terms};
ghost use Rattle.fp_field.specs.Reduction.{IsGraded};
ghost use Rattle.spaces.specs.Homology.{HomologyList};
ghost use Rattle.spaces.specs.Spaces.{Space, Plain, set_of};
ghost use Rattle.spaces.specs.SmallCells.{Small};
ghost use Rattle.values.specs.Asks.{basis, cycles};
ghost use Rattle.values.specs.Values.{value};
ghost use Rattle.values.specs.Laws.{smalls};
ghost use Rattle.homology_laws.specs.Lists.{HasKeys, d_rank};
ghost use Rattle.homology_laws.specs.Kernel.{BasisRises, IsListable};

use fp_field::Prime;

/// Betti numbers: the listed cycles of degree n, and so those of each homology list of that degree, are
/// as many as the small cells of degree n less the ranks of the small differential on these and on the
/// small cells of degree n + 1. The first rank is that of the matrix over any list that has the keys of
/// the differentials: the small cells of degree n - 1 are one, and in degree 0 the empty list (any text
/// on homology). It does nothing; its clauses are the law.
pub fn count_laws(p: Prime)
    ensures lengths { (a : Space) (n : ℕ) (xs zs : List (Terms (Plain a)))
        → HomologyList (set_of a) (number p) n xs → HomologyList (set_of a) (number p) n zs → length xs ≡ length zs }
    ensures listed { (a : Space) (n : ℕ) → IsListable (number p) a n
        → (us : List (Small a)) → HasKeys (number p) (smalls (number p) a) us (value (number p) (basis a n))
        → length (value (number p) (cycles a n))
        + d_rank (number p) (smalls (number p) a) us (value (number p) (basis a n))
        + d_rank (number p) (smalls (number p) a) (value (number p) (basis a n)) (value (number p) (basis a (suc n)))
        ≡ length (value (number p) (basis a n)) }
    ensures each { (a : Space) (n : ℕ) → IsListable (number p) a n
        → (us : List (Small a)) → HasKeys (number p) (smalls (number p) a) us (value (number p) (basis a n))
        → (zs : List (Terms (Plain a))) → HomologyList (set_of a) (number p) n zs
        → length zs
        + d_rank (number p) (smalls (number p) a) us (value (number p) (basis a n))
        + d_rank (number p) (smalls (number p) a) (value (number p) (basis a n)) (value (number p) (basis a (suc n)))
        ≡ length (value (number p) (basis a n)) }
    ensures keys { (a : Space) (n : ℕ) → IsGraded (number p) (smalls (number p) a) → BasisRises (number p) a n → BasisRises (number p) a (suc n)
        → HasKeys (number p) (smalls (number p) a) (value (number p) (basis a n)) (value (number p) (basis a (suc n))) }
    ensures no_keys { (a : Space) → IsGraded (number p) (smalls (number p) a) → BasisRises (number p) a zero
        → HasKeys (number p) (smalls (number p) a) [] (value (number p) (basis a zero)) }
{
    let _ = p;
}
