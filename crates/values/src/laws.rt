// What values and outcomes have to do with each other.
ghost use Rattle.std.specs.Prelude.{◌≡◌, ℕ};
ghost use Rattle.values.specs.Asks.{Ask, value_with};
ghost use Rattle.values.specs.Values.{right_side, value, needs};
ghost use Rattle.values.specs.Outcomes.{Limits, outcome, outcome_with, first_over, refused_or, IsOutcomeOf};

/// The outcome of a question is its value or a refusal, whatever the limits.
pub fn outcome_laws()
    ensures { (m : Limits) (p : ℕ) (k : Ask) → IsOutcomeOf (value p k) (outcome m p k) }
{}

/// A right side that is read with the outcomes of what it asks gives the first refusal along the
/// needs of its question, in their order, and its value where there is none.
pub fn refusal_laws()
    ensures { (m : Limits) (p : ℕ) (k : Ask)
        → outcome_with (outcome m p) (right_side p k) ≡ refused_or (first_over (outcome m p) (needs p k)) (value_with (value p) (right_side p k)) }
{}
