// The names of a session.
ghost use Rattle.std.specs.Prelude.{◌≡◌, ℕ, List, [], ◌∷◌, ◌++◌, map, Some, None, false};
ghost use Rattle.term_lang.specs.declared.terms.Term.{Term};
ghost use Rattle.session_core.specs.Answer.{Names, is_name, lookup, defined};

/// A name that is defined stands for its term, and every other name for what it stood for. A name that
/// was there keeps its place, and a new one is the last: names are in the order of their first definition.
pub fn name_laws()
    ensures found { (names : Names) (name : List ℕ) (t : Term) → lookup (defined names name t) name ≡ Some t }
    ensures others { (names : Names) (name other : List ℕ) (t : Term) → is_name name other ≡ false → lookup (defined names name t) other ≡ lookup names other }
    ensures kept { (names : Names) (name : List ℕ) (t u : Term) → lookup names name ≡ Some u → map (λ n. n.0) (defined names name t) ≡ map (λ n. n.0) names }
    ensures last { (names : Names) (name : List ℕ) (t : Term) → lookup names name ≡ None → map (λ n. n.0) (defined names name t) ≡ map (λ n. n.0) names ++ name ∷ [] }
{}
