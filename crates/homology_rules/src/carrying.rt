// Vectors over small cells, carried into the space by G.
ghost use Rattle.std.specs.Prelude.{◌≡◌, IfOk, All, length, map};
ghost use Rattle.elim_fp.specs.Rows.{vectors_of};
ghost use Rattle.homology_rules.specs.Asking.{MayForceEach, AskedFirst, EachAnswered, up_to_refusal};
ghost use Rattle.homology_rules.specs.Vectors.{keys_of_vector, carried_of, keys_of_vectors, IsCarried, AreCarried};

use crate::asking::{Answers, ask_all};
use crate::keys::keys_of_terms;
use crate::sums::sum_of;
use crate::vectors::terms_of_vector;
use chain_core::Chain;
use elim_fp::FpRow;
use oracle_iface::{ChainList, Forcer, Key, Op, Over};
use std::alloc::{AllocError, Global};
use term_lang::{Cell, SmallCell};

/// What G makes of a vector.
#[derive(Debug, Drop)]
pub enum Carried {
    /// The sum of the values of G at its small cells, each times its number.
    Sum(Chain<Cell>),
    /// The first refusal among these values.
    Over(Over),
}

/// What G makes of vectors.
#[derive(Debug, Drop)]
pub enum CarriedList {
    /// The chain of each vector, in order.
    Chains(ChainList),
    /// The first refusal on the way.
    Over(Over),
}

/// Carries a vector over small cells into the space of a key.
pub fn carry<F: Forcer>(
    alloc: Global,
    key: &Key,
    cells: &[SmallCell],
    vector: &FpRow,
    forcer: &mut F,
) -> Result<Carried, AllocError>
    requires prime { vector.now.prime ≡ key.now.prime }
    requires width { length vector.now.values ≡ length cells.now }
    requires forcer { MayForceEach F.may_force F.forces forcer.old (keys_of_vector key.now cells.now vector.now.values) }
    ensures asked { AskedFirst F.forces (keys_of_vector key.now cells.now vector.now.values) forcer.old forcer.new }
    ensures carried { IfOk result (λ c. IsCarried F.forces (keys_of_vector key.now cells.now vector.now.values) (carried_of key.now cells.now vector.now.values) forcer.old forcer.new c) }
    ensures through { IfOk result (λ c. EachAnswered F.forces forcer.old (up_to_refusal (keys_of_vector key.now cells.now vector.now.values)) forcer.new) }
{
    let terms = terms_of_vector(alloc, cells, vector)?;
    let keys = keys_of_terms(alloc, key, Op::G, &terms)?;
    match ask_all(alloc, &keys, forcer)? {
        Answers::Over(over) => Ok(Carried::Over(over)),
        Answers::Values(images) => Ok(Carried::Sum(sum_of(alloc, key.prime, &terms, &images)?)),
    }
}

/// Carries vectors over small cells into the space of a key, one after the other.
pub fn carry_all<F: Forcer>(
    alloc: Global,
    key: &Key,
    cells: &[SmallCell],
    vectors: &[FpRow],
    forcer: &mut F,
) -> Result<CarriedList, AllocError>
    requires primes { All (λ r. r.prime ≡ key.now.prime) vectors.now }
    requires widths { All (λ r. length r.values ≡ length cells.now) vectors.now }
    requires forcer { MayForceEach F.may_force F.forces forcer.old (keys_of_vectors key.now cells.now (vectors_of vectors.now)) }
    ensures asked { AskedFirst F.forces (keys_of_vectors key.now cells.now (vectors_of vectors.now)) forcer.old forcer.new }
    ensures carried { IfOk result (λ c. AreCarried F.forces (keys_of_vectors key.now cells.now (vectors_of vectors.now)) (map (λ v. carried_of key.now cells.now v) (vectors_of vectors.now)) forcer.old forcer.new c) }
{
    let mut chains = ChainList::new(alloc);
    for vector in vectors {
        match carry(alloc, key, cells, vector, forcer)? {
            Carried::Over(over) => return Ok(CarriedList::Over(over)),
            Carried::Sum(chain) => chains.push(chain)?,
        }
    }
    Ok(CarriedList::Chains(chains))
}
