// F of base and fibre on tensors.
ghost use Rattle.std.specs.Prelude.{◌≡◌, ◌+◌, ◌*◌, ◌<◌, ◌≤◌, ℕ, All, IfOk, OnOk};
ghost use Rattle.fp_field.specs.Field.{number, SameMod};
ghost use Rattle.fp_field.specs.Chains.{EachKey, weigh};
ghost use Rattle.cells.specs.declared.cells.SmallCell.TheVariants.{Pair};
ghost use Rattle.chain_core.specs.Formal.{numbers};
ghost use Rattle.homology_rules.specs.Asking.{MayForceEach, AskedFirst, EachAnswered, up_to_refusal};
ghost use Rattle.part_asks.specs.Along.{AsksValid};
ghost use Rattle.part_asks.specs.Reading.{keys_of, IsFound};
ghost use Rattle.fibred_asks.specs.Parts.{AreParts, formal_smalls};
ghost use Rattle.fibred_asks.specs.Asked.{prime_of, base_of, fibre_of, IsTensorIn, f_asked};

use crate::maps::Maps;
use cells::Cell;
use chain_core::Chain;
use ez_maps::Tensor;
use fp_field::{Fp, mul};
use oracle_iface::Forcer;
use part_asks::{Found, part_f};
use seqs::Box;
use std::alloc::{AllocError, Global};
use term_lang::{SmallCell, copy_small};

/// F of base and fibre along a chain of tensors of degree n: for each tensor in order it asks for F of the left cell and F of the right one,
/// which give pairs of small cells.
pub fn on_smalls<F: Forcer>(
    alloc: Global,
    m: &Maps,
    n: u32,
    most: u64,
    c: &Chain<Tensor<Cell, Cell>>,
    forcer: &mut F,
) -> Result<Found<Chain<SmallCell>>, AllocError>
    requires parts { AreParts (prime_of m.now) (base_of m.now) (fibre_of m.now) }
    requires degree { n ≤ 32 }
    requires prime { c.now.prime ≡ (prime_of m.now) }
    requires tensors { EachKey (IsTensorIn m.now most n) c.now.terms }
    requires valid { AsksValid (prime_of m.now) (f_asked m.now c.now.terms) }
    requires asks { MayForceEach F.may_force F.forces forcer.old (keys_of (prime_of m.now) (f_asked m.now c.now.terms)) }
    ensures asked { AskedFirst F.forces (keys_of (prime_of m.now) (f_asked m.now c.now.terms)) forcer.old forcer.new }
    ensures through { IfOk result (λ o. EachAnswered F.forces forcer.old (up_to_refusal (keys_of (prime_of m.now) (f_asked m.now c.now.terms))) forcer.new) }
    ensures found { IfOk result (λ o. IsFound (formal_smalls (prime_of m.now) (base_of m.now) (fibre_of m.now)) (prime_of m.now) (f_asked m.now c.now.terms) o) }
{
    let mut terms = Vec::new(alloc);
    for (x, coefficient) in c.terms() {
        let left = match part_f(alloc, m.base.prime, &m.base.term, &x.left, forcer)? {
            Found::Over(over) => return Ok(Found::Over(over)),
            Found::Value(left) => left,
        };
        let right = match part_f(alloc, m.base.prime, &m.fibre.term, &x.right, forcer)? {
            Found::Over(over) => return Ok(Found::Over(over)),
            Found::Value(right) => right,
        };
        push_products(alloc, &mut terms, &left, &right, *coefficient)?;
    }
    Ok(Found::Value(Chain::from_terms(alloc, m.base.prime, terms)?))
}

/// Pushes the pairs of a small cell of one chain and one of another, each times the product of the two coefficients and c.
fn push_products(
    alloc: Global,
    terms: &mut Vec<(SmallCell, Fp)>,
    left: &Chain<SmallCell>,
    right: &Chain<SmallCell>,
    c: Fp,
) -> Result<(), AllocError>
    requires prime { right.now.prime ≡ left.now.prime }
    requires element { c.value < number left.now.prime }
    requires elements { All (λ t. t.1.value < number left.now.prime) terms.old.items }
    ensures elements { OnOk result (All (λ t. t.1.value < number left.now.prime) terms.new.items) }
    ensures sum { OnOk result ((w : SmallCell → ℕ) → SameMod (number left.now.prime) (weigh w (numbers terms.new.items)) (weigh w (numbers terms.old.items) + c.value * weigh (λ y. weigh (λ z. w (Pair y z)) right.now.terms) left.now.terms)) }
{
    let p = left.prime();
    for (y, coefficient) in left.terms() {
        push_pairs_with(alloc, terms, y, right, mul(p, c, *coefficient))?;
    }
    Ok(())
}

/// Pushes the pairs of a small cell with each of a chain, each times its coefficient and c.
fn push_pairs_with(
    alloc: Global,
    terms: &mut Vec<(SmallCell, Fp)>,
    y: &SmallCell,
    chain: &Chain<SmallCell>,
    c: Fp,
) -> Result<(), AllocError>
    requires element { c.value < number chain.now.prime }
    requires elements { All (λ t. t.1.value < number chain.now.prime) terms.old.items }
    ensures elements { OnOk result (All (λ t. t.1.value < number chain.now.prime) terms.new.items) }
    ensures sum { OnOk result ((w : SmallCell → ℕ) → SameMod (number chain.now.prime) (weigh w (numbers terms.new.items)) (weigh w (numbers terms.old.items) + c.value * weigh (λ z. w (Pair y.now z)) chain.now.terms)) }
{
    let p = chain.prime();
    for (z, coefficient) in chain.terms() {
        let left = Box::new(alloc, copy_small(alloc, y)?)?;
        let right = Box::new(alloc, copy_small(alloc, z)?)?;
        terms.push((SmallCell::Pair(left, right), mul(p, c, *coefficient)))?;
    }
    Ok(())
}
