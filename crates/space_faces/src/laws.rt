// Laws of the definitions. Each function does nothing; its clauses are the law.
ghost use Rattle.std.specs.Prelude.{◌≡◌};
ghost use Rattle.fp_field.specs.Chains.{Terms, EachKey};
ghost use Rattle.spaces.specs.Allowed.{IsAllowed};
ghost use Rattle.spaces.specs.Spaces.{Space};
ghost use Rattle.values.specs.Asks.{Cell as GradedCell};
ghost use Rattle.oracle_iface.specs.Keys.{quote_chain};
ghost use Rattle.oracle_iface.specs.KeyLaws.{IsShown};
ghost use Rattle.normal_forms.specs.Built.{IsBuilt};
ghost use Rattle.space_faces.specs.Boundaries.{IsLowCell, IsBounded, graded_chain};

/// A chain of non-degenerate simplices of degrees up to 32, as the code has it, is a chain of cells that
/// stands for it, with the same integers: the boundary may be asked of it where they are at most 2^40
/// in magnitude.
pub fn quoted_chains()
    ensures cells { (X : Space) → IsAllowed X → IsBuilt X → (c : Terms (GradedCell X)) → EachKey (IsShown X) c → EachKey (IsBounded X) c → EachKey (IsLowCell X) (quote_chain X c) }
    ensures back { (X : Space) → IsAllowed X → IsBuilt X → (c : Terms (GradedCell X)) → EachKey (IsShown X) c → graded_chain X (quote_chain X c) ≡ c }
{}
