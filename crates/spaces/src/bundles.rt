// Bundles: the twisting operator of a cocycle, and the simplicial set that it makes.
ghost use Rattle.spaces.specs.Allowed.{Admits, IsTable, IsCocycle};
ghost use Rattle.spaces.specs.Cocycles.{cocycle_twisting};
ghost use Rattle.spaces.specs.Nerves.{integers, integers_modulo, nerve_times};
ghost use Rattle.spaces.specs.Products.{IsTwisting};
ghost use Rattle.spaces.specs.Simplicial.{IsSimplicial};
ghost use Rattle.spaces.specs.Spaces.{table, kz1, kzm1, bundle, cyclic_bundle, set_of};
ghost use Rattle.spaces.specs.Tables.{Table};
ghost use Rattle.std.specs.Prelude.{◌<◌, ℕ, ℤ, List};

/// The formula of a cocycle of degree 2 on a table, with integers as values, is a twisting operator
/// from the table to the nerve of the integers (May, Simplicial Objects, chapter IV, 18).
pub fn cocycle_laws()
    ensures { (t : Table) (c : List ℤ) → IsTable t → IsCocycle integers t c
        → IsTwisting (set_of (table t)) (set_of kz1) (cocycle_twisting integers t c) (nerve_times integers) }
{}

/// So is that of a cocycle with values in the integers modulo m, for each m from 1 on.
pub fn cyclic_cocycle_laws()
    ensures { (t : Table) (m : ℕ) (c : List ℕ) → 0 < m → IsTable t → IsCocycle (integers_modulo m) t c
        → IsTwisting (set_of (table t)) (set_of (kzm1 m)) (cocycle_twisting (integers_modulo m) t c) (nerve_times (integers_modulo m)) }
{}

/// The circle bundle of a cocycle is a simplicial set (May, Simplicial Objects, chapter IV, 18).
pub fn bundle_laws()
    ensures { (t : Table) (c : List ℤ) → Admits (bundle t c) → IsSimplicial (set_of (bundle t c)) }
{}

/// So is the bundle of a cocycle with values in the integers modulo m.
pub fn cyclic_bundle_laws()
    ensures { (t : Table) (m : ℕ) (c : List ℕ) → Admits (cyclic_bundle t m c) → IsSimplicial (set_of (cyclic_bundle t m c)) }
{}
