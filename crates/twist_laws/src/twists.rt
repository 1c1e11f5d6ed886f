// Any twisted product of two spaces, by the twisting identities.
ghost use Rattle.std.specs.Prelude.{ℕ, ◌<◌};
ghost use Rattle.fp_field.specs.Chains.{Terms};
ghost use Rattle.spaces.specs.Products.{IsTwisting};
ghost use Rattle.spaces.specs.Spaces.{Space, Plain, set_of};
ghost use Rattle.spaces.specs.Orders.{ordered};
ghost use Rattle.spaces.specs.Allowed.{IsAllowed, HasOneVertex};
ghost use Rattle.spaces.specs.EilenbergZilber.{linear, Pair};
ghost use Rattle.values.specs.Twists.{twisted};
ghost use Rattle.twist_laws.specs.LeftDegrees.{LowersLeft, IsSeriesOf, transferred, LowersByTwo};

/// The twist lowers the degree by 1 and the left dimension by at least 1, and so it does after and
/// before the flow.
pub fn twists_lower_left()
    ensures { (p : ℕ) (a b : Space) (t : Plain a → Plain b) (times : Plain b → Plain b → Plain b) → 0 < p → IsAllowed a → IsAllowed b
        → IsTwisting (set_of a) (set_of b) t times
        → LowersLeft p (linear (ordered a)) (set_of a).In (ordered b) (twisted p (ordered a) (ordered b) t times) }
{}

/// Where P is the sum of the series 1 - k q + k q k q - .. of the flow k and the twist q, and the fibre
/// has one vertex, the transferred difference AW q P EML lowers the degree by 1 and the left degree by
/// at least 2: of the terms of AW q EML that lower it by 1 two and two cancel (Shih 1962).
pub fn twists_lower_by_two()
    ensures { (p : ℕ) (a b : Space) (t : Plain a → Plain b) (times : Plain b → Plain b → Plain b)
        (P : Pair (Plain a) (Plain b) → Terms (Pair (Plain a) (Plain b))) → 0 < p → IsAllowed a → IsAllowed b
        → IsTwisting (set_of a) (set_of b) t times → HasOneVertex (set_of b)
        → IsSeriesOf p (linear (ordered a)) (set_of a).In (ordered b) (twisted p (ordered a) (ordered b) t times) P
        → LowersByTwo p (linear (ordered a)) (set_of a).In (ordered b)
        (transferred p (linear (ordered a)) (set_of a).In (ordered b) (twisted p (ordered a) (ordered b) t times) P) }
{}
