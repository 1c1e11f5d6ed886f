// Each construction gives a simplicial set.
ghost use Rattle.spaces.specs.Groups.{IsSimplicialGroup};
ghost use Rattle.spaces.specs.Nerves.{integers, integers_modulo, nerve_times};
ghost use Rattle.spaces.specs.Simplicial.{IsSimplicial};
ghost use Rattle.spaces.specs.Allowed.{IsTable, Admits};
ghost use Rattle.spaces.specs.Spaces.{Space, table, sphere, product, suspension, kz1, kzm1, set_of};
ghost use Rattle.spaces.specs.Tables.{Table, copies};
ghost use Rattle.std.specs.Prelude.{ℕ, ◌<◌, map};

/// The product of two simplicial sets is a simplicial set (May, Simplicial Objects, chapter I).
pub fn product_laws()
    ensures { (a b : Space) → IsSimplicial (set_of a) → IsSimplicial (set_of b) → IsSimplicial (set_of (product a b)) }
{}

/// The set of a table is a simplicial set, where the faces of its rows satisfy the law between two
/// faces (May, Simplicial Objects, chapter I).
pub fn table_laws()
    ensures { (t : Table) → IsTable t → IsSimplicial (set_of (table t)) }
{}

/// Each sphere of dimension 1 or more is a simplicial set (May, Simplicial Objects, chapter I).
pub fn sphere_laws()
    ensures { (m : ℕ) → 0 < m → IsSimplicial (set_of (sphere m)) }
{}

/// The suspension of an allowed space that is a simplicial set is one (May, Simplicial Objects,
/// chapter VI, 27).
pub fn suspension_laws()
    ensures { (a : Space) → Admits a → IsSimplicial (set_of a) → IsSimplicial (set_of (suspension a)) }
{}

/// The nerve of the integers is a simplicial set (May, Simplicial Objects, chapter IV, 21).
pub fn integers_laws()
    ensures { IsSimplicial (set_of kz1) }
{}

/// The nerve of the integers modulo m is a simplicial set for each m from 1 on (May, Simplicial
/// Objects, chapter IV, 21).
pub fn residues_laws()
    ensures { (m : ℕ) → 0 < m → IsSimplicial (set_of (kzm1 m)) }
{}

/// The nerve of the integers is a simplicial group, lists being added place by place: faces and
/// degeneracies are homomorphisms (May, Simplicial Objects, chapter IV, 21).
pub fn integers_group()
    ensures { IsSimplicialGroup (set_of kz1) (nerve_times integers) (λ n. copies n integers.none) (map integers.negative) }
{}

/// So is the nerve of the integers modulo m, for each m from 1 on.
pub fn residues_group()
    ensures { (m : ℕ) → 0 < m
        → IsSimplicialGroup (set_of (kzm1 m)) (nerve_times (integers_modulo m)) (λ n. copies n (integers_modulo m).none) (map (integers_modulo m).negative) }
{}
