// What the values of the parts of a product or a circle bundle have. Each function does nothing; its clause is the law.
ghost use Rattle.std.specs.Prelude.{ℕ, ◌≤◌};
ghost use Rattle.fibred_asks.specs.Reached.{HasReachedValues, limited_reach};
ghost use Rattle.normal_forms.specs.Built.{IsBuilt};
ghost use Rattle.space_pairs.specs.Reach.{reach};
ghost use Rattle.spaces.specs.Allowed.{IsAllowed};
ghost use Rattle.spaces.specs.Spaces.{Space, Plain, set_of};
ghost use Rattle.values.specs.Sizes.{integer};

use fp_field::Prime;

/// The values of an allowed space that is built have their degrees, as its maps are a reduction. The cells of
/// those that are not refused have a bounded reach, as their integers are of magnitude at most 100,000.
pub fn reached_values(p: Prime)
    ensures { (a : Space) → IsAllowed a → IsBuilt a → HasReachedValues p a }
{
    let _ = p;
}

/// A simplex of degree at most 32 of an allowed space that is built, whose integers are of magnitude at most
/// 100,000, has a bounded reach.
pub fn limited_reaches()
    ensures { (a : Space) (n : ℕ) (x : Plain a) → IsAllowed a → IsBuilt a → (set_of a).In n x → n ≤ 32 → integer a x ≤ 100000 → reach a x ≤ limited_reach }
{}
