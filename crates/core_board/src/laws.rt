// Laws of boards and of lists of events. Each function does nothing; its clauses are the law.
ghost use Rattle.std.specs.Prelude.{◌≡◌, ◌↔◌, ◌++◌, ◌∷◌, ℕ, List};
ghost use Rattle.oracle_iface.specs.Board.{Event, publishes};
ghost use Rattle.core_board.specs.Boards.{States, board_of};
ghost use Rattle.core_board.specs.Interleavings.{AllMadeIsRight, IsGivenBack, AllNeedsAreBelow};
ghost use Rattle.core_board.specs.Legality.{of_key, IsLegal, IsOnlyPublication};
ghost use Rattle.oracle_iface.specs.Keys.{question_of, IsValidKey};
ghost use Rattle.oracle_iface.specs.declared.keys.Key.{Key};
ghost use Rattle.values.specs.BaseLaws.{IsSimple};
ghost use Rattle.values.specs.Ranks.{space_of};

use oracle_iface::RuleSet;

/// Boards on which each key stands alike are the same.
pub fn one_board()
    ensures { (a b : States) → board_of a ≡ board_of b → a ≡ b }
{}

/// A list of events is legal exactly where, for each key, its events of that key are; so what is done
/// to one key does not bear on another. A publication in a legal list is by the seat that holds the
/// key, is the only one of its key, and is the last event of its key.
pub fn legal_lists()
    ensures by_keys { (events : List Event) → IsLegal events ↔ ((key : ℕ) → IsLegal (of_key key events)) }
    ensures published_once { (before after : List Event) (e : Event) → IsLegal (before ++ e ∷ after) → e.act ≡ publishes → IsOnlyPublication before e after }
{}

/// What is published comes to the same in every interleaving. Where each publication of a list of
/// events is made over the publications before it, by the rules of questions, each is the outcome of
/// its key: whatever sessions made the events, and however their events are mixed. It is stated for the
/// keys that a rule set treats, if their outcomes are what their rules give back; for all valid keys, if what
/// each valid question needs is below it; and, with no premise, for the keys about tables, spheres and
/// K(Z,1), suspended any number of times.
pub fn interleavings<R: RuleSet>(rules: &R)
    ensures treated { ((k : Key) → R.treats rules.now k → IsGivenBack k) → AllMadeIsRight (R.treats rules.now) }
    ensures valid { AllNeedsAreBelow → AllMadeIsRight IsValidKey }
    ensures simple { AllMadeIsRight (λ k. IsSimple (space_of (question_of k))) }
{
    let _ = rules;
}
