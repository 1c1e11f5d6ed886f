// F and H of a chain, by asking.
ghost use Rattle.std.specs.Prelude.{◌≡◌, ◌++◌, IfOk, map};
ghost use Rattle.oracle_iface.specs.declared.keys.Op.TheVariants.{F as ImageOp, H as HomotopyOp};
ghost use Rattle.homology_rules.specs.Asking.{MayForceEach, AskedFirst};
ghost use Rattle.homology_rules.specs.CellKeys.{cell_key_of};
ghost use Rattle.session_core.specs.Along.{ComesAlong};
ghost use Rattle.session_core.specs.KeyedParts.{keys_at_cells, keys_of_images, image_at, homotopy_at, AreImages};

use crate::answered::Answered;
use chain_core::Chain;
use fp_field::Fp;
use homology_rules::{Answers, ask_all, small_sum_of, sum_of};
use oracle_iface::{Forcer, Key, Op, Place};
use std::alloc::{AllocError, Global};
use term_lang::{Cell, SmallCell, copy_cell};

/// F of a chain, in the small complex, and H of it.
#[derive(Debug, Drop)]
pub struct Images {
    pub image: Chain<SmallCell>,
    pub homotopy: Chain<Cell>,
}

/// The key of an operation at a cell, of the space of a key and over its field.
fn cell_key(alloc: Global, key: &Key, op: Op, x: &Cell) -> Result<Key, AllocError>
    ensures { IfOk result (λ k. k ≡ cell_key_of key.now op x.now) }
{
    Ok(Key {
        op,
        prime: key.prime,
        place: Place::Big(copy_cell(alloc, x)?),
        term: key.term.clone()?,
    })
}

/// The keys of an operation at the cells of terms.
fn cell_keys(alloc: Global, key: &Key, op: Op, terms: &[(Cell, Fp)]) -> Result<Vec<Key>, AllocError>
    ensures { IfOk result (λ keys. keys.items ≡ map (λ t. cell_key_of key.now op t.0) terms.now) }
{
    let mut keys = Vec::with_capacity(alloc, terms.len())?;
    for (x, _) in terms {
        keys.push(cell_key(alloc, key, op, x)?)?;
    }
    Ok(keys)
}

/// F of a chain: asks for F at its cells in order, up to the first refusal.
fn image<F: Forcer>(
    alloc: Global,
    key: &Key,
    z: &Chain<Cell>,
    forcer: &mut F,
) -> Result<Answered<Chain<SmallCell>>, AllocError>
    requires prime { z.now.prime ≡ key.now.prime }
    requires forcer { MayForceEach F.may_force F.forces forcer.old (keys_at_cells key.now ImageOp z.now.terms) }
    ensures asked { AskedFirst F.forces (keys_at_cells key.now ImageOp z.now.terms) forcer.old forcer.new }
    ensures answer { IfOk result (λ a. ComesAlong F.forces (keys_at_cells key.now ImageOp z.now.terms) (λ c. c ≡ image_at key.now z.now.terms) forcer.old forcer.new a) }
{
    let keys = cell_keys(alloc, key, Op::F, z.terms())?;
    match ask_all(alloc, &keys, forcer)? {
        Answers::Over(over) => Ok(Answered::Over(over)),
        Answers::Values(images) => {
            let sum = small_sum_of(alloc, key.prime, z.terms(), &images)?;
            Ok(Answered::Told(sum))
        }
    }
}

/// H of a chain: asks for H at its cells in order, up to the first refusal.
fn homotopy<F: Forcer>(
    alloc: Global,
    key: &Key,
    z: &Chain<Cell>,
    forcer: &mut F,
) -> Result<Answered<Chain<Cell>>, AllocError>
    requires prime { z.now.prime ≡ key.now.prime }
    requires forcer { MayForceEach F.may_force F.forces forcer.old (keys_at_cells key.now HomotopyOp z.now.terms) }
    ensures asked { AskedFirst F.forces (keys_at_cells key.now HomotopyOp z.now.terms) forcer.old forcer.new }
    ensures answer { IfOk result (λ a. ComesAlong F.forces (keys_at_cells key.now HomotopyOp z.now.terms) (λ c. c ≡ homotopy_at key.now z.now.terms) forcer.old forcer.new a) }
{
    let keys = cell_keys(alloc, key, Op::H, z.terms())?;
    match ask_all(alloc, &keys, forcer)? {
        Answers::Over(over) => Ok(Answered::Over(over)),
        Answers::Values(images) => {
            let sum = sum_of(alloc, key.prime, z.terms(), &images)?;
            Ok(Answered::Told(sum))
        }
    }
}

/// F and then H of a chain.
pub(crate) fn ask_images<F: Forcer>(
    alloc: Global,
    key: &Key,
    z: &Chain<Cell>,
    forcer: &mut F,
) -> Result<Answered<Images>, AllocError>
    requires prime { z.now.prime ≡ key.now.prime }
    requires forcer { MayForceEach F.may_force F.forces forcer.old (keys_of_images key.now z.now.terms) }
    ensures asked { AskedFirst F.forces (keys_of_images key.now z.now.terms) forcer.old forcer.new }
    ensures answer { IfOk result (λ a. ComesAlong F.forces (keys_of_images key.now z.now.terms) (λ i. AreImages key.now z.now.terms i) forcer.old forcer.new a) }
{
    let image = match image(alloc, key, z, forcer)? {
        Answered::Over(over) => return Ok(Answered::Over(over)),
        Answered::Told(image) => image,
    };
    match homotopy(alloc, key, z, forcer)? {
        Answered::Over(over) => Ok(Answered::Over(over)),
        Answered::Told(homotopy) => Ok(Answered::Told(Images { image, homotopy })),
    }
}
