// When the rule of suspensions may be used, and what their values have. Each function does nothing; its clauses are the law.
ghost use Rattle.fp_field.specs.Field.{number};
ghost use Rattle.fp_field.specs.Reduction.{HasDegrees, IsReduction, IsReductionTo};
ghost use Rattle.spaces.specs.Spaces.{Space, suspension};
ghost use Rattle.spaces.specs.Allowed.{IsAllowed};
ghost use Rattle.term_lang.specs.SpaceOf.{space_of};
ghost use Rattle.values.specs.BaseLaws.{IsSimple};
ghost use Rattle.values.specs.Laws.{maps_of};
ghost use Rattle.oracle_iface.specs.KeyLaws.{HasCells};
ghost use Rattle.oracle_iface.specs.declared.keys.Key.{Key};
ghost use Rattle.homology_laws.specs.Suspended.{innermost, IsGivenBack};
ghost use Rattle.homology_rules.specs.Shown.{HasShownValues};
ghost use Rattle.susp_rules.specs.Suspendable.{IsSuspendable, IsOutcomeBack};

use fp_field::Prime;

/// The values of a space have only cells that the code has, where its maps have their degrees and the
/// cells of the code are those of the space: so those of a suspension, where the maps of its part are a
/// reduction as far as degree 1, and those of a table, a sphere or K(Z,1), suspended any number of times.
pub fn shown_values(p: Prime)
    ensures degrees { (a : Space) → IsAllowed a → HasCells a → HasDegrees (number p) (maps_of (number p) a) → HasShownValues (number p) a }
    ensures suspension { (a : Space) → IsAllowed (suspension a) → HasCells (suspension a) → IsGivenBack (number p) (suspension a)
        → IsReductionTo (number p) 1 (maps_of (number p) a) → HasShownValues (number p) (suspension a) }
    ensures simple { (a : Space) → IsAllowed a → IsSimple a → HasCells a → IsReduction (number p) (maps_of (number p) (innermost a))
        → HasShownValues (number p) a }
{
    let _ = p;
}

/// The rule of suspensions may be used for the keys about a table, a sphere or K(Z,1) that is suspended
/// any number of times, where the maps of this innermost part are a reduction and the cells of the code
/// are those of the spaces on the way.
pub fn rule_laws(p: Prime)
    ensures suspendable { (a : Space) → IsAllowed (suspension a) → IsSimple a → HasCells a → HasCells (suspension a)
        → IsReduction (number p) (maps_of (number p) (innermost a)) → IsSuspendable (number p) a }
    ensures back { (k : Key) → IsSimple (space_of k.term) → IsOutcomeBack k }
{
    let _ = p;
}
