ghost use Rattle.std.specs.Prelude.{ℕ};
ghost use Rattle.simp_ops.specs.Operators.{WordIdentities};
ghost use Rattle.simp_ops.specs.PairForms.{ArePairForms};

/// Faces and degeneracies act on words by the simplicial identities (May, Simplicial Objects in
/// Algebraic Topology, definition 1.1). It does nothing; its clause is the law.
pub fn word_identities()
    ensures { (n : ℕ) → WordIdentities n }
{}

/// Each pair of words of one degree is in exactly one way a common word before two words without a
/// common place. It does nothing; its clause is the law.
pub fn pair_forms()
    ensures { (n : ℕ) → ArePairForms n }
{}
