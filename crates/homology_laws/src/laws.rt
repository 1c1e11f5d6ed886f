// The homology of a space, by a reduction of its chains.
ghost use Rattle.std.specs.Prelude.{ℕ, suc, Bool, List, map};
ghost use Rattle.fp_field.specs.Field.{number};
ghost use Rattle.fp_field.specs.Chains.{extend};
ghost use Rattle.fp_field.specs.Reduction.{IsReductionTo};
ghost use Rattle.echelons.specs.Echelon.{Vector};
ghost use Rattle.spaces.specs.Homology.{HomologyList};
ghost use Rattle.spaces.specs.Spaces.{Space, set_of};
ghost use Rattle.spaces.specs.SmallCells.{Small};
ghost use Rattle.values.specs.Asks.{cycles};
ghost use Rattle.values.specs.Values.{value};
ghost use Rattle.values.specs.Laws.{cells, smalls, maps_of, plain_chain, ListsHomology, ValuesAreGivenBack};
ghost use Rattle.homology_laws.specs.Lists.{chain_on, homology_vectors, IsBase, IsCycleTest, HomologyListOf};
ghost use Rattle.homology_laws.specs.Kernel.{BasisRises, IsListable};

use fp_field::Prime;

/// A reduction as far as degree n + 1, with finite bases of the small complex in degrees n and n + 1,
/// gives a homology list of degree n: G of a basis of the vectors of small cycles up to those of
/// boundaries (Rubio and Sergeraert, Constructive Homological Algebra and Applications, chapter 2). It
/// does nothing; its clause is the law.
pub fn reduction_homology(p: Prime)
    ensures { (a : Space) (n : ℕ) → IsReductionTo (number p) (suc n) (maps_of (number p) a)
        → (ys zs : List (Small a)) → IsBase (number p) (smalls (number p) a) n ys → IsBase (number p) (smalls (number p) a) (suc n) zs
        → (test : Vector → Bool) → IsCycleTest (number p) (smalls (number p) a) ys test
        → HomologyListOf (number p) (cells (number p) a) n
        (map (λ v. extend (maps_of (number p) a).g (chain_on ys v)) (homology_vectors (number p) (smalls (number p) a) ys zs test)) }
{
    let _ = p;
}

/// The cycles that stand for the homology of a space in a degree n are, as chains of simplices, a
/// homology list of that degree: each cycle is, with exactly one list of coefficients, their combination
/// plus a boundary. It needs that the maps of the space are a reduction as far as degree n + 1, that its
/// small cells of degrees n and n + 1 rise and have their degrees, and that the value of the cycles is
/// what their right side gives, as the values of all valid questions are. It does nothing; its clauses
/// are the law.
pub fn listed_homology(p: Prime)
    ensures lists { (a : Space) (n : ℕ) → IsReductionTo (number p) (suc n) (maps_of (number p) a)
        → BasisRises (number p) a n → BasisRises (number p) a (suc n) → ValuesAreGivenBack (number p) → ListsHomology (number p) a n }
    ensures list { (a : Space) (n : ℕ) → IsListable (number p) a n
        → HomologyList (set_of a) (number p) n (map (plain_chain (number p) a) (value (number p) (cycles a n))) }
{
    let _ = p;
}
