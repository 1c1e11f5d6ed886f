// The rule of products and circle bundles.
ghost use Rattle.std.specs.Prelude.{◌≡◌, IfOk, None};
ghost use Rattle.term_lang.specs.SpaceOf.{space_of};
ghost use Rattle.oracle_iface.specs.Forcing.{MayForceNeeds, AsksNeeds};
ghost use Rattle.oracle_iface.specs.Keys.{IsValidKey};
ghost use Rattle.oracle_iface.specs.Stands.{IsOutcome};
ghost use Rattle.normal_forms.specs.Built.{IsBuilt};
ghost use Rattle.oracle_iface.specs.declared.keys.Op.TheVariants.{Basis, Cycles};
ghost use Rattle.homology_rules.specs.Asking.{MayForceEach, AskedFirst, EachAnswered, up_to_refusal};
ghost use Rattle.oracle_iface.specs.Limits.{kind_past};
ghost use Rattle.susp_rules.specs.Places.{size_at};
ghost use Rattle.twist_rules.specs.Concluded.{keys_needed, IsFoundFor};
ghost use Rattle.twist_rules.specs.PartSpaces.{IsFibred};

use crate::bases::pairs_by_asking;
use crate::found_at::{d_found, f_found, g_found, h_found};
use crate::laws::part_needs;
use crate::outcomes::concluded;
use crate::part_maps::{part_key, values_in};
use crate::part_terms::part_terms;
use crate::places::{cell_at, degree_at, place_past, smalls_at};
use fibred_asks::Maps;
use oracle_iface::{Body, Forcer, Key, Op, Outcome, Over, copy_key};
use part_asks::Found;
use std::alloc::{AllocError, Global};

/// What the right side comes to for the small cells of a degree: the pairs of those of base and fibre.
fn basis_found<F: Forcer>(
    alloc: Global,
    key: &Key,
    forcer: &mut F,
) -> Result<Found<Body>, AllocError>
    requires valid { IsValidKey key.now }
    requires space { IsFibred (space_of key.now.term) }
    requires op { key.now.op ≡ Basis }
    requires forcer { MayForceEach F.may_force F.forces forcer.old (keys_needed key.now) }
    ensures asked { AskedFirst F.forces (keys_needed key.now) forcer.old forcer.new }
    ensures through { IfOk result (λ o. EachAnswered F.forces forcer.old (up_to_refusal (keys_needed key.now)) forcer.new) }
    ensures found { IfOk result (λ o. IsFoundFor key.now o) }
{
    let parts = part_terms(alloc, key.term.get())?;
    pairs_by_asking(alloc, key.prime, &parts, degree_at(&key.place), forcer)
}

/// What the right side comes to for the maps: what those of the product or the bundle come to at the key's place, by asking for those of base
/// and fibre.
fn maps_found<F: Forcer>(
    alloc: Global,
    key: &Key,
    forcer: &mut F,
) -> Result<Found<Body>, AllocError>
    requires valid { IsValidKey key.now }
    requires space { IsFibred (space_of key.now.term) × IsBuilt (space_of key.now.term) }
    requires op { (key.now.op ≡ Cycles → ⊥) × (key.now.op ≡ Basis → ⊥) }
    requires within { kind_past (size_at key.now.place) ≡ None }
    requires forcer { MayForceEach F.may_force F.forces forcer.old (keys_needed key.now) }
    ensures asked { AskedFirst F.forces (keys_needed key.now) forcer.old forcer.new }
    ensures through { IfOk result (λ o. EachAnswered F.forces forcer.old (up_to_refusal (keys_needed key.now)) forcer.new) }
    ensures found { IfOk result (λ o. IsFoundFor key.now o) }
{
    let parts = part_terms(alloc, key.term.get())?;
    let base = part_key(key.prime, parts.base);
    let fibre = part_key(key.prime, parts.fibre);
    let m = Maps {
        base: &base,
        fibre: &fibre,
        values: values_in(key.term.get()),
    };
    match key.op {
        Op::F => f_found(alloc, key, &m, cell_at(&key.place), forcer),
        Op::H => h_found(alloc, key, &m, cell_at(&key.place), forcer),
        Op::G => {
            let (y, z) = smalls_at(&key.place);
            g_found(alloc, key, &m, y, z, forcer)
        }
        Op::SmallD => {
            let (y, z) = smalls_at(&key.place);
            d_found(alloc, key, &m, y, z, forcer)
        }
        Op::Basis | Op::Cycles => unreachable!(),
    }
}

/// What the right side of the rule of a key comes to.
fn found<F: Forcer>(alloc: Global, key: &Key, forcer: &mut F) -> Result<Found<Body>, AllocError>
    requires valid { IsValidKey key.now }
    requires space { IsFibred (space_of key.now.term) × IsBuilt (space_of key.now.term) }
    requires op { key.now.op ≡ Cycles → ⊥ }
    requires within { kind_past (size_at key.now.place) ≡ None }
    requires forcer { MayForceEach F.may_force F.forces forcer.old (keys_needed key.now) }
    ensures asked { AskedFirst F.forces (keys_needed key.now) forcer.old forcer.new }
    ensures through { IfOk result (λ o. EachAnswered F.forces forcer.old (up_to_refusal (keys_needed key.now)) forcer.new) }
    ensures found { IfOk result (λ o. IsFoundFor key.now o) }
{
    match key.op {
        Op::Basis => basis_found(alloc, key, forcer),
        Op::F | Op::G | Op::H | Op::SmallD | Op::Cycles => maps_found(alloc, key, forcer),
    }
}

/// The outcome of a key whose place is within the limits.
fn within_limits<F: Forcer>(alloc: Global, key: &Key, forcer: &mut F) -> Result<Outcome, AllocError>
    requires valid { IsValidKey key.now }
    requires space { IsFibred (space_of key.now.term) × IsBuilt (space_of key.now.term) }
    requires op { key.now.op ≡ Cycles → ⊥ }
    requires within { kind_past (size_at key.now.place) ≡ None }
    requires forcer { MayForceNeeds F.may_force F.forces key.now forcer.old }
    ensures outcome { IfOk result (λ o. IsOutcome key.now o) }
    ensures asked { AsksNeeds F.forces key.now forcer.old forcer.new result }
{
    part_needs(key);
    let found = found(alloc, key, forcer)?;
    concluded(alloc, key, found)
}

/// The outcome of a key about a product or a circle bundle, other than that of its cycles. It asks the forcer for what the maps of the
/// definitions need of base and fibre, in the order of evaluation, up to the first refusal, which is that of the key: the Eilenberg-Zilber
/// reduction, perturbed by the twist, and then the tensor product of the reductions of base and fibre, perturbed by what the twist has become
/// (Shih 1962; Rubio and Sergeraert, Constructive Homological Algebra and Applications, chapter 3). The limits on what the key is at come
/// before that, those on the value after it.
pub fn rule<F: Forcer>(alloc: Global, key: &Key, forcer: &mut F) -> Result<Outcome, AllocError>
    requires valid { IsValidKey key.now }
    requires space { IsFibred (space_of key.now.term) × IsBuilt (space_of key.now.term) }
    requires op { key.now.op ≡ Cycles → ⊥ }
    requires forcer { MayForceNeeds F.may_force F.forces key.now forcer.old }
    ensures outcome { IfOk result (λ o. IsOutcome key.now o) }
    ensures asked { AsksNeeds F.forces key.now forcer.old forcer.new result }
{
    match place_past(&key.place) {
        Some((kind, size)) => Ok(Outcome::Over(Over {
            key: copy_key(alloc, key)?,
            kind,
            size,
        })),
        None => within_limits(alloc, key, forcer),
    }
}
