// The small differential of a pair of small cells, from chains of small cells.
ghost use Rattle.std.specs.Prelude.{◌≡◌, ◌<◌, ◌++◌, All, IfOk, OnOk};
ghost use Rattle.fp_field.specs.Field.{number, sign, SameMod};
ghost use Rattle.chain_core.specs.Formal.{numbers};
ghost use Rattle.ez_laws.specs.Sides.{on_keys};
ghost use Rattle.fibred_asks.specs.Transferred.{with_left, with_right, pair_differential};

use chain_core::Chain;
use fp_field::{Fp, Prime, value};
use seqs::Box;
use std::alloc::{AllocError, Global};
use term_lang::{SmallCell, copy_small};

/// (-1)^degree in F_p.
fn sign_of(p: Prime, degree: u32) -> Fp
    ensures element { result.value < number p }
    ensures value { SameMod (number p) result.value (sign (number p) degree) }
{
    if degree % 2 == 0 {
        Fp { value: 1 }
    } else {
        Fp {
            value: value(p) - 1,
        }
    }
}

/// The pair of two small cells.
fn small_pair(alloc: Global, x: &SmallCell, y: &SmallCell) -> Result<SmallCell, AllocError>
    ensures { IfOk result (λ z. z ≡ with_left x.now y.now) }
{
    let left = Box::new(alloc, copy_small(alloc, x)?)?;
    let right = Box::new(alloc, copy_small(alloc, y)?)?;
    Ok(SmallCell::Pair(left, right))
}

/// Pushes the terms of a chain, each paired with z on the right.
fn push_with_right(
    alloc: Global,
    pairs: &mut Vec<(SmallCell, Fp)>,
    chain: &Chain<SmallCell>,
    z: &SmallCell,
) -> Result<(), AllocError>
    requires elements { All (λ t. t.1.value < number chain.now.prime) pairs.old.items }
    ensures elements { OnOk result (All (λ t. t.1.value < number chain.now.prime) pairs.new.items) }
    ensures pairs { OnOk result (numbers pairs.new.items ≡ numbers pairs.old.items ++ on_keys (with_right z.now) chain.now.terms) }
{
    for (key, coefficient) in chain.terms() {
        pairs.push((small_pair(alloc, key, z)?, *coefficient))?;
    }
    Ok(())
}

/// Pushes the terms of a chain, each paired with y on the left.
fn push_with_left(
    alloc: Global,
    pairs: &mut Vec<(SmallCell, Fp)>,
    y: &SmallCell,
    chain: &Chain<SmallCell>,
) -> Result<(), AllocError>
    requires elements { All (λ t. t.1.value < number chain.now.prime) pairs.old.items }
    ensures elements { OnOk result (All (λ t. t.1.value < number chain.now.prime) pairs.new.items) }
    ensures pairs { OnOk result (numbers pairs.new.items ≡ numbers pairs.old.items ++ on_keys (with_left y.now) chain.now.terms) }
{
    for (key, coefficient) in chain.terms() {
        pairs.push((small_pair(alloc, y, key)?, *coefficient))?;
    }
    Ok(())
}

/// The small differential of the pair of y, of this degree, and z: from that of y, that of z and the part that the twist makes.
pub(crate) fn pair_differential(
    alloc: Global,
    degree: u32,
    y: &SmallCell,
    z: &SmallCell,
    of_left: Chain<SmallCell>,
    of_right: Chain<SmallCell>,
    twisted: Chain<SmallCell>,
) -> Result<Chain<SmallCell>, AllocError>
    requires right_prime { of_right.prime ≡ of_left.prime }
    requires twisted_prime { twisted.prime ≡ of_left.prime }
    ensures prime { IfOk result (λ r. r.prime ≡ of_left.prime) }
    ensures sum { IfOk result (λ r. r.terms ≡ pair_differential (number of_left.prime) degree y.now z.now of_left.terms of_right.terms twisted.terms) }
{
    let p = of_left.prime();
    let mut signed = of_right;
    signed.scale(sign_of(p, degree));
    let mut pairs = twisted.into_terms();
    push_with_right(alloc, &mut pairs, &of_left, z)?;
    push_with_left(alloc, &mut pairs, y, &signed)?;
    Chain::from_terms(alloc, p, pairs)
}
