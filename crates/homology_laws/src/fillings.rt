// A cycle of a space and its listed cycles.
ghost use Rattle.std.specs.Prelude.{◌≡◌, ℕ};
ghost use Rattle.fp_field.specs.Field.{number};
ghost use Rattle.fp_field.specs.Chains.{Terms};
ghost use Rattle.echelons.specs.Echelon.{Vector};
ghost use Rattle.spaces.specs.Spaces.{Space};
ghost use Rattle.values.specs.Asks.{Cell};
ghost use Rattle.values.specs.Laws.{cells};
ghost use Rattle.homology_laws.specs.Lists.{IsCycleOf};
ghost use Rattle.homology_laws.specs.Kernel.{IsListable, IsRead, filling, IsFilledBy};

use fp_field::Prime;

/// For a cycle z of degree n: F(z) is in exactly one way a combination of the vectors of the listed
/// cycles plus SmallD of w, where w is 0 at each small cell of degree n + 1 whose SmallD is a combination
/// of those of earlier ones. Then z minus the combination of the listed cycles is d of H(z) + G(w), and
/// no other coefficients leave a boundary (Rubio and Sergeraert, Constructive Homological Algebra and
/// Applications, chapter 2). It does nothing; its clauses are the law.
pub fn filling_laws(p: Prime)
    ensures read { (a : Space) (n : ℕ) → IsListable (number p) a n → (z : Terms (Cell a)) → IsCycleOf (number p) (cells (number p) a) n z
        → (coefficients numbers : Vector) × IsRead (number p) a n z coefficients numbers
        × ((others last : Vector) → IsRead (number p) a n z others last → (others ≡ coefficients) × (last ≡ numbers)) }
    ensures filled { (a : Space) (n : ℕ) → IsListable (number p) a n → (z : Terms (Cell a)) → IsCycleOf (number p) (cells (number p) a) n z
        → (coefficients numbers : Vector) → IsRead (number p) a n z coefficients numbers
        → IsFilledBy (number p) a n z coefficients (filling (number p) a n z numbers) }
{
    let _ = p;
}
