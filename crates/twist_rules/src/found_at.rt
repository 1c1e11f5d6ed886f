// What the right sides of the maps of a product or a circle bundle come to, at the place of a key.
ghost use Rattle.std.specs.Prelude.{◌≡◌, IfOk, None};
ghost use Rattle.fp_field.specs.Reduction.{one};
ghost use Rattle.term_lang.specs.SpaceOf.{space_of};
ghost use Rattle.normal_forms.specs.Built.{IsBuilt};
ghost use Rattle.oracle_iface.specs.Keys.{IsValidKey};
ghost use Rattle.oracle_iface.specs.Limits.{kind_past};
ghost use Rattle.oracle_iface.specs.declared.keys.Op.TheVariants.{F as OpF, G as OpG, H as OpH, SmallD as OpSmallD};
ghost use Rattle.oracle_iface.specs.declared.keys.Place.TheVariants.{Small as SmallPlace, Big as BigPlace};
ghost use Rattle.cells.specs.declared.cells.SmallCell.TheVariants.{Pair as SmallPair};
ghost use Rattle.homology_rules.specs.Asking.{MayForceEach, AskedFirst, EachAnswered, up_to_refusal};
ghost use Rattle.susp_rules.specs.Places.{size_at};
ghost use Rattle.twist_rules.specs.Concluded.{keys_needed, IsFoundFor};
ghost use Rattle.twist_rules.specs.PartMaps.{AreMapsOf};
ghost use Rattle.twist_rules.specs.PartSpaces.{IsFibred};

use crate::laws::assembled_values;
use cells::{Cell, copy_cell, dim, small_degree};
use chain_core::Chain;
use fibred_asks::{Maps, limited_reaches, reached_values, total_d, total_f, total_g, total_h};
use fp_field::{Fp, Prime};
use oracle_iface::{Body, Forcer, Key};
use part_asks::Found;
use std::alloc::{AllocError, Global};
use term_lang::SmallCell;

/// The chain of one cell with the coefficient 1.
fn single(alloc: Global, p: Prime, x: &Cell) -> Result<Chain<Cell>, AllocError>
    ensures prime { IfOk result (λ c. c.prime ≡ p) }
    ensures terms { IfOk result (λ c. c.terms ≡ one x.now) }
{
    let mut chain = Chain::new(alloc, p);
    chain.add_term(copy_cell(alloc, x)?, Fp { value: 1 })?;
    Ok(chain)
}

/// F at a cell.
pub(crate) fn f_found<F: Forcer>(
    alloc: Global,
    key: &Key,
    m: &Maps,
    x: &Cell,
    forcer: &mut F,
) -> Result<Found<Body>, AllocError>
    requires valid { IsValidKey key.now }
    requires space { IsFibred (space_of key.now.term) × IsBuilt (space_of key.now.term) }
    requires maps { AreMapsOf m.now key.now }
    requires op { key.now.op ≡ OpF }
    requires place { key.now.place ≡ BigPlace x.now }
    requires within { kind_past (size_at key.now.place) ≡ None }
    requires forcer { MayForceEach F.may_force F.forces forcer.old (keys_needed key.now) }
    ensures asked { AskedFirst F.forces (keys_needed key.now) forcer.old forcer.new }
    ensures through { IfOk result (λ o. EachAnswered F.forces forcer.old (up_to_refusal (keys_needed key.now)) forcer.new) }
    ensures found { IfOk result (λ o. IsFoundFor key.now o) }
{
    assembled_values(m.base.prime);
    reached_values(m.base.prime);
    limited_reaches();
    let chain = single(alloc, m.base.prime, x)?;
    match total_f(alloc, m, dim(x), &chain, forcer)? {
        Found::Over(over) => Ok(Found::Over(over)),
        Found::Value(value) => Ok(Found::Value(Body::Small(value))),
    }
}

/// H at a cell.
pub(crate) fn h_found<F: Forcer>(
    alloc: Global,
    key: &Key,
    m: &Maps,
    x: &Cell,
    forcer: &mut F,
) -> Result<Found<Body>, AllocError>
    requires valid { IsValidKey key.now }
    requires space { IsFibred (space_of key.now.term) × IsBuilt (space_of key.now.term) }
    requires maps { AreMapsOf m.now key.now }
    requires op { key.now.op ≡ OpH }
    requires place { key.now.place ≡ BigPlace x.now }
    requires within { kind_past (size_at key.now.place) ≡ None }
    requires forcer { MayForceEach F.may_force F.forces forcer.old (keys_needed key.now) }
    ensures asked { AskedFirst F.forces (keys_needed key.now) forcer.old forcer.new }
    ensures through { IfOk result (λ o. EachAnswered F.forces forcer.old (up_to_refusal (keys_needed key.now)) forcer.new) }
    ensures found { IfOk result (λ o. IsFoundFor key.now o) }
{
    assembled_values(m.base.prime);
    reached_values(m.base.prime);
    limited_reaches();
    let chain = single(alloc, m.base.prime, x)?;
    match total_h(alloc, m, dim(x), &chain, forcer)? {
        Found::Over(over) => Ok(Found::Over(over)),
        Found::Value(value) => Ok(Found::Value(Body::Big(value))),
    }
}

/// G at a pair of small cells.
pub(crate) fn g_found<F: Forcer>(
    alloc: Global,
    key: &Key,
    m: &Maps,
    y: &SmallCell,
    z: &SmallCell,
    forcer: &mut F,
) -> Result<Found<Body>, AllocError>
    requires valid { IsValidKey key.now }
    requires space { IsFibred (space_of key.now.term) × IsBuilt (space_of key.now.term) }
    requires maps { AreMapsOf m.now key.now }
    requires op { key.now.op ≡ OpG }
    requires place { key.now.place ≡ SmallPlace (SmallPair y.now z.now) }
    requires within { kind_past (size_at key.now.place) ≡ None }
    requires forcer { MayForceEach F.may_force F.forces forcer.old (keys_needed key.now) }
    ensures asked { AskedFirst F.forces (keys_needed key.now) forcer.old forcer.new }
    ensures through { IfOk result (λ o. EachAnswered F.forces forcer.old (up_to_refusal (keys_needed key.now)) forcer.new) }
    ensures found { IfOk result (λ o. IsFoundFor key.now o) }
{
    assembled_values(m.base.prime);
    reached_values(m.base.prime);
    let n = small_degree(y) + small_degree(z);
    match total_g(alloc, m, n, y, z, forcer)? {
        Found::Over(over) => Ok(Found::Over(over)),
        Found::Value(value) => Ok(Found::Value(Body::Big(value))),
    }
}

/// The small differential at a pair of small cells.
pub(crate) fn d_found<F: Forcer>(
    alloc: Global,
    key: &Key,
    m: &Maps,
    y: &SmallCell,
    z: &SmallCell,
    forcer: &mut F,
) -> Result<Found<Body>, AllocError>
    requires valid { IsValidKey key.now }
    requires space { IsFibred (space_of key.now.term) × IsBuilt (space_of key.now.term) }
    requires maps { AreMapsOf m.now key.now }
    requires op { key.now.op ≡ OpSmallD }
    requires place { key.now.place ≡ SmallPlace (SmallPair y.now z.now) }
    requires within { kind_past (size_at key.now.place) ≡ None }
    requires forcer { MayForceEach F.may_force F.forces forcer.old (keys_needed key.now) }
    ensures asked { AskedFirst F.forces (keys_needed key.now) forcer.old forcer.new }
    ensures through { IfOk result (λ o. EachAnswered F.forces forcer.old (up_to_refusal (keys_needed key.now)) forcer.new) }
    ensures found { IfOk result (λ o. IsFoundFor key.now o) }
{
    assembled_values(m.base.prime);
    reached_values(m.base.prime);
    let n = small_degree(y) + small_degree(z);
    match total_d(alloc, m, n, y, z, forcer)? {
        Found::Over(over) => Ok(Found::Over(over)),
        Found::Value(value) => Ok(Found::Value(Body::Small(value))),
    }
}
