// Sums of the chains that cells of the table hold.
ghost use Rattle.std.specs.Prelude.{◌≡◌, ◌+◌, ◌*◌, ◌<◌, ℕ, IfOk, OnOk, All, length, map};
ghost use Rattle.fp_field.specs.Field.{number, SameMod};
ghost use Rattle.fp_field.specs.Chains.{weigh, combination};
ghost use Rattle.fp_field.specs.Normal.{normal};
ghost use Rattle.cells.specs.declared.cells.Cell.{Cell};
ghost use Rattle.cells.specs.declared.cells.SmallCell.{SmallCell as CodeSmall};
ghost use Rattle.cells.specs.Order.{cell_cmp};
ghost use Rattle.cells.specs.Small.{small_cmp};
ghost use Rattle.chain_core.specs.Formal.{numbers};
ghost use Rattle.homology_rules.specs.Held.{HasBig, HasBigOver, HasSmallOver, big_in, small_in};

use crate::rows::small_chain;
use chain_core::Chain;
use fp_field::{Fp, Prime, mul};
use oracle_iface::{Body, CellValue, Outcome};
use seqs::Arc;
use std::alloc::{AllocError, Global};
use term_lang::{Cell, SmallCell, copy_cell, copy_small};

/// The chain of the space that a cell of the table holds.
fn big_chain(cell: &CellValue) -> &Chain<Cell>
    requires { HasBig cell.now.outcome }
    ensures { result.now ≡ big_in cell.now.outcome }
{
    match &cell.outcome {
        Outcome::Value(Body::Big(chain)) => chain,
        _ => unreachable!(),
    }
}

/// Pushes the terms of a chain, each times c.
fn push_scaled(
    alloc: Global,
    sum: &mut Vec<(Cell, Fp)>,
    chain: &Chain<Cell>,
    c: Fp,
) -> Result<(), AllocError>
    requires element { c.value < number chain.now.prime }
    requires elements { All (λ t. t.1.value < number chain.now.prime) sum.old.items }
    ensures elements { OnOk result (All (λ t. t.1.value < number chain.now.prime) sum.new.items) }
    ensures sum { OnOk result ((w : Cell → ℕ) → SameMod (number chain.now.prime) (weigh w (numbers sum.new.items)) (weigh w (numbers sum.old.items) + c.value * weigh w chain.now.terms)) }
{
    let p = chain.prime();
    sum.reserve(chain.len())?;
    for (key, coefficient) in chain.terms() {
        sum.push((copy_cell(alloc, key)?, mul(p, c, *coefficient)))?;
    }
    Ok(())
}

/// The sum of the chains of the space that cells of the table hold, each times the coefficient of the
/// term at its place.
pub fn sum_of<S>(
    alloc: Global,
    p: Prime,
    terms: &[(S, Fp)],
    cells: &[Arc<CellValue>],
) -> Result<Chain<Cell>, AllocError>
    requires lengths { length cells.now ≡ length terms.now }
    requires elements { All (λ t. t.1.value < number p) terms.now }
    requires chains { All (λ v. HasBigOver p v.outcome) cells.now }
    ensures prime { IfOk result (λ c. c.prime ≡ p) }
    ensures sum { IfOk result (λ c. c.terms ≡ normal cell_cmp (number p) (combination (map (λ t. t.1.value) terms.now) (map (λ v. (big_in v.outcome).terms) cells.now))) }
{
    let mut sum = Vec::new(alloc);
    for i in 0..cells.len() {
        push_scaled(alloc, &mut sum, big_chain(cells[i].get()), terms[i].1)?;
    }
    Chain::from_terms(alloc, p, sum)
}

/// Pushes the terms of a chain of the small complex, each times c.
fn push_small_scaled(
    alloc: Global,
    sum: &mut Vec<(SmallCell, Fp)>,
    chain: &Chain<SmallCell>,
    c: Fp,
) -> Result<(), AllocError>
    requires element { c.value < number chain.now.prime }
    requires elements { All (λ t. t.1.value < number chain.now.prime) sum.old.items }
    ensures elements { OnOk result (All (λ t. t.1.value < number chain.now.prime) sum.new.items) }
    ensures sum { OnOk result ((w : CodeSmall → ℕ) → SameMod (number chain.now.prime) (weigh w (numbers sum.new.items)) (weigh w (numbers sum.old.items) + c.value * weigh w chain.now.terms)) }
{
    let p = chain.prime();
    sum.reserve(chain.len())?;
    for (key, coefficient) in chain.terms() {
        sum.push((copy_small(alloc, key)?, mul(p, c, *coefficient)))?;
    }
    Ok(())
}

/// The sum of the chains of the small complex that cells of the table hold, each times the coefficient of
/// the term at its place.
pub fn small_sum_of<S>(
    alloc: Global,
    p: Prime,
    terms: &[(S, Fp)],
    cells: &[Arc<CellValue>],
) -> Result<Chain<SmallCell>, AllocError>
    requires lengths { length cells.now ≡ length terms.now }
    requires elements { All (λ t. t.1.value < number p) terms.now }
    requires chains { All (λ v. HasSmallOver p v.outcome) cells.now }
    ensures prime { IfOk result (λ c. c.prime ≡ p) }
    ensures sum { IfOk result (λ c. c.terms ≡ normal small_cmp (number p) (combination (map (λ t. t.1.value) terms.now) (map (λ v. (small_in v.outcome).terms) cells.now))) }
{
    let mut sum = Vec::new(alloc);
    for i in 0..cells.len() {
        push_small_scaled(alloc, &mut sum, small_chain(cells[i].get()), terms[i].1)?;
    }
    Chain::from_terms(alloc, p, sum)
}
