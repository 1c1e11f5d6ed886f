// Keys at small cells of the space of a key.
ghost use Rattle.std.specs.Prelude.{◌≡◌, IfOk, map};
ghost use Rattle.homology_rules.specs.SmallKeys.{small_key_of};

use fp_field::Fp;
use oracle_iface::{Key, Op, Place};
use std::alloc::{AllocError, Global};
use term_lang::{SmallCell, copy_small};

/// The key of an operation at a small cell, of the space of a key and over its field.
pub fn small_key(alloc: Global, key: &Key, op: Op, y: &SmallCell) -> Result<Key, AllocError>
    ensures { IfOk result (λ k. k ≡ small_key_of key.now op y.now) }
{
    Ok(Key {
        op,
        prime: key.prime,
        place: Place::Small(copy_small(alloc, y)?),
        term: key.term.clone()?,
    })
}

/// The keys of an operation at small cells.
pub fn small_keys(
    alloc: Global,
    key: &Key,
    op: Op,
    cells: &[SmallCell],
) -> Result<Vec<Key>, AllocError>
    ensures { IfOk result (λ keys. keys.items ≡ map (λ y. small_key_of key.now op y) cells.now) }
{
    let mut keys = Vec::with_capacity(alloc, cells.len())?;
    for y in cells {
        keys.push(small_key(alloc, key, op, y)?)?;
    }
    Ok(keys)
}

/// The keys of an operation at the small cells of terms.
pub fn keys_of_terms(
    alloc: Global,
    key: &Key,
    op: Op,
    terms: &[(SmallCell, Fp)],
) -> Result<Vec<Key>, AllocError>
    ensures { IfOk result (λ keys. keys.items ≡ map (λ t. small_key_of key.now op t.0) terms.now) }
{
    let mut keys = Vec::with_capacity(alloc, terms.len())?;
    for (y, _) in terms {
        keys.push(small_key(alloc, key, op, y)?)?;
    }
    Ok(keys)
}
