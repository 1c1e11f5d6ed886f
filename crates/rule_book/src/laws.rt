// What the keys need that there are rules for.
ghost use Rattle.std.specs.Prelude.{◌≡◌, ◌⊎◌, [], Contains};
ghost use Rattle.fp_field.specs.Field.{number};
ghost use Rattle.spaces.specs.Spaces.{Space, suspension};
ghost use Rattle.term_lang.specs.SpaceOf.{space_of};
ghost use Rattle.values.specs.Asks.{Ask};
ghost use Rattle.values.specs.BaseLaws.{HasNoParts};
ghost use Rattle.values.specs.Ranks.{IsLower, space_of as space_asked};
ghost use Rattle.oracle_iface.specs.Keys.{question_of, key_of, needs_of};
ghost use Rattle.oracle_iface.specs.declared.keys.Op.TheVariants.{Cycles};
ghost use Rattle.susp_rules.specs.Treated.{IsTreated};
ghost use Rattle.susp_rules.specs.Suspendable.{IsOnlyNeed};
ghost use Rattle.twist_rules.specs.PartSpaces.{IsFibred, base_of, fibre_of};
ghost use Rattle.rule_book.specs.Places.{key_below};

use oracle_iface::Key;

/// What is needed for a key that there is a rule for has a rule too, and a lower rank. But for cycles, a
/// key about a table, a sphere or K(Z,1) needs nothing, and a key about a suspension needs the key of what
/// is suspended at the place that its own lies over, and nothing where it lies over none: at the base, and
/// in the degrees 0 and 1. A key about a product or a circle bundle needs keys about its base and its fibre.
/// The function does nothing; its clauses are the law.
pub fn needs_laws(key: &Key)
    ensures treated { (q : Ask) → IsTreated key.now → Contains (needs_of key.now) q → IsTreated (key_of key.now.prime q) }
    ensures lower { (q : Ask) → IsTreated key.now → Contains (needs_of key.now) q → IsLower (number key.now.prime) q (question_of key.now) }
    ensures none { IsTreated key.now → HasNoParts (space_of key.now.term) → (key.now.op ≡ Cycles → ⊥) → needs_of key.now ≡ [] }
    ensures part { (a : Space) → IsTreated key.now → space_of key.now.term ≡ suspension a → (key.now.op ≡ Cycles → ⊥)
        → IsOnlyNeed key.now.prime (needs_of key.now) (key_below key.now a) }
    ensures parts { (q : Ask) → IsTreated key.now → IsFibred (space_of key.now.term) → (key.now.op ≡ Cycles → ⊥) → Contains (needs_of key.now) q
        → (space_asked q ≡ base_of (space_of key.now.term)) ⊎ (space_asked q ≡ fibre_of (space_of key.now.term)) }
{}
