// The homology of spheres.
ghost use Rattle.std.specs.Prelude.{◌<◌};
ghost use Rattle.fp_field.specs.Field.{number};
ghost use Rattle.spaces.specs.Homology.{HomologyList};
ghost use Rattle.spaces.specs.Spaces.{set_of, sphere};
ghost use Rattle.spaces.specs.SphereCycles.{sphere_cycles};

use fp_field::Prime;

/// The vertex represents a basis of the homology over F_p of the sphere of dimension m in degree 0, its cell one in degree m, and
/// the homology is 0 in each other degree n (any text on homology). The dimension m is 1 or more.
pub fn sphere_homology(p: Prime, m: u32, n: u32)
    requires { 0 < m }
    ensures { HomologyList (set_of (sphere m)) (number p) n (sphere_cycles m n) }
{}
