// The normalised chains of a space, by its cells.
ghost use Rattle.std.specs.Prelude.{◌↔◌, ℕ, suc, List, map};
ghost use Rattle.fp_field.specs.Field.{number};
ghost use Rattle.fp_field.specs.Chains.{Terms, extend};
ghost use Rattle.fp_field.specs.Reduction.{SameTerms, IsComplex};
ghost use Rattle.spaces.specs.Homology.{IsChain, IsCycle, Same, boundary, HomologyList};
ghost use Rattle.spaces.specs.Spaces.{Space, Plain, set_of};
ghost use Rattle.spaces.specs.Allowed.{IsAllowed};
ghost use Rattle.values.specs.Asks.{Cell};
ghost use Rattle.values.specs.Laws.{cell_d, cells, plain_chain};
ghost use Rattle.homology_laws.specs.Lists.{IsChainOf, IsCycleOf, HomologyListOf};

use fp_field::Prime;

/// The cells of an allowed space, its simplices that are not degenerate, are the generators of a
/// complex. Each chain of simplices counts as exactly one chain of cells, and the two have one
/// boundary. So cycles are cycles, and a homology list of the complex of cells is one of the simplices
/// (May, Simplicial Objects, chapter V, 22). It does nothing; its clauses are the law.
pub fn cell_laws(p: Prime)
    ensures complex { (a : Space) → IsAllowed a → IsComplex (number p) (cells (number p) a) }
    ensures chains { (a : Space) (n : ℕ) (z : Terms (Plain a)) → IsAllowed a → IsChain (set_of a) (number p) n z
        → (c : Terms (Cell a)) × IsChainOf (number p) (cells (number p) a) n c × Same (set_of a) (number p) n (plain_chain (number p) a c) z
        × ((d : Terms (Cell a)) → IsChainOf (number p) (cells (number p) a) n d → Same (set_of a) (number p) n (plain_chain (number p) a d) z
        → SameTerms (number p) (cells (number p) a).same c d) }
    ensures boundaries { (a : Space) (n : ℕ) (c : Terms (Cell a)) → IsAllowed a → IsChainOf (number p) (cells (number p) a) (suc n) c
        → Same (set_of a) (number p) n (plain_chain (number p) a (extend (cell_d (number p) a) c)) (boundary (set_of a) (number p) (suc n) (plain_chain (number p) a c)) }
    ensures cycles { (a : Space) (n : ℕ) (c : Terms (Cell a)) → IsAllowed a → IsChainOf (number p) (cells (number p) a) n c
        → IsCycleOf (number p) (cells (number p) a) n c ↔ IsCycle (set_of a) (number p) n (plain_chain (number p) a c) }
    ensures homology { (a : Space) (n : ℕ) (zs : List (Terms (Cell a))) → IsAllowed a → HomologyListOf (number p) (cells (number p) a) n zs
        → HomologyList (set_of a) (number p) n (map (plain_chain (number p) a) zs) }
{
    let _ = p;
}
