// What the values of products and circle bundles have, and what keys about them need. Each function does nothing; its clauses are the
// law.
ghost use Rattle.std.specs.Prelude.{◌≡◌, All};
ghost use Rattle.fp_field.specs.Field.{number};
ghost use Rattle.homology_rules.specs.Shown.{HasShownValues};
ghost use Rattle.normal_forms.specs.Built.{IsBuilt};
ghost use Rattle.oracle_iface.specs.KeyLaws.{HasCells};
ghost use Rattle.oracle_iface.specs.Keys.{IsValidKey, needs_of};
ghost use Rattle.oracle_iface.specs.declared.keys.Op.TheVariants.{Cycles};
ghost use Rattle.spaces.specs.Allowed.{IsAllowed};
ghost use Rattle.spaces.specs.Spaces.{Space};
ghost use Rattle.term_lang.specs.SpaceOf.{space_of};
ghost use Rattle.twist_laws.specs.Assembled.{IsAssembled};
ghost use Rattle.twist_rules.specs.Concluded.{NeedsReadBack};
ghost use Rattle.twist_rules.specs.PartSpaces.{IsFibred, base_of, fibre_of};
ghost use Rattle.values.specs.Ranks.{IsValid};

use fp_field::Prime;
use oracle_iface::Key;

/// The values of an allowed space that is made of tables, spheres, K(Z,1) and its bundles by products and
/// suspensions have only cells that the code has, where the cells of the code are those of the space: its
/// maps are a reduction, and so have their degrees. It is so where the space is built.
pub fn assembled_values(p: Prime)
    ensures assembled { (a : Space) → IsAllowed a → IsAssembled a → HasCells a → HasShownValues (number p) a }
    ensures built { (a : Space) → IsAllowed a → IsAssembled a → IsBuilt a → HasShownValues (number p) a }
{
    let _ = p;
}

/// What is needed for a valid key about a product or a circle bundle, other than that of its cycles, is
/// valid, and its key is read as that question, where the cells of the code are those of base and fibre.
pub fn part_needs(key: &Key)
    ensures valid { IsValidKey key.now → IsFibred (space_of key.now.term) → IsAssembled (space_of key.now.term) → (key.now.op ≡ Cycles → ⊥)
        → All (IsValid (number key.now.prime)) (needs_of key.now) }
    ensures back { IsValidKey key.now → IsFibred (space_of key.now.term) → IsAssembled (space_of key.now.term) → (key.now.op ≡ Cycles → ⊥)
        → HasCells (base_of (space_of key.now.term)) → HasCells (fibre_of (space_of key.now.term)) → NeedsReadBack key.now }
{}
