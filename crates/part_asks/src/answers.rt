// The chains that keys come to, by asking.
ghost use Rattle.std.specs.Prelude.{◌≡◌, [], ◌∷◌, IfOk, None};
ghost use Rattle.homology_rules.specs.Asking.{outcome_of, refusal_in, AskedFirst, EachAnswered};
ghost use Rattle.homology_rules.specs.Held.{HasBig, HasSmall, big_in};
ghost use Rattle.part_asks.specs.OneKey.{IsSmallAnswer, IsBigAnswer};

use crate::found::Found;
use chain_core::Chain;
use homology_rules::small_chain;
use oracle_iface::{Body, CellValue, Forcer, Key, Outcome, copy_over};
use std::alloc::{AllocError, Global};
use term_lang::{Cell, SmallCell};

/// The chain of the small complex that a key comes to.
pub fn small_answer<F: Forcer>(
    alloc: Global,
    key: Key,
    forcer: &mut F,
) -> Result<Found<Chain<SmallCell>>, AllocError>
    requires kind { refusal_in (outcome_of key) ≡ None → HasSmall (outcome_of key) }
    requires may { F.may_force forcer.old key }
    ensures asked { AskedFirst F.forces (key ∷ []) forcer.old forcer.new }
    ensures through { IfOk result (λ o. EachAnswered F.forces forcer.old (key ∷ []) forcer.new) }
    ensures found { IfOk result (λ o. IsSmallAnswer key o) }
{
    let cell = forcer.force(key)?;
    match &cell.get().outcome {
        Outcome::Over(over) => Ok(Found::Over(copy_over(alloc, over)?)),
        Outcome::Value(_) => Ok(Found::Value(small_chain(cell.get()).clone()?)),
    }
}

/// The chain of the space that a cell of the table holds.
fn big_chain(cell: &CellValue) -> &Chain<Cell>
    requires { HasBig cell.now.outcome }
    ensures { result.now ≡ big_in cell.now.outcome }
{
    match &cell.outcome {
        Outcome::Value(Body::Big(chain)) => chain,
        _ => unreachable!(),
    }
}

/// The chain of the space that a key comes to.
pub fn big_answer<F: Forcer>(
    alloc: Global,
    key: Key,
    forcer: &mut F,
) -> Result<Found<Chain<Cell>>, AllocError>
    requires kind { refusal_in (outcome_of key) ≡ None → HasBig (outcome_of key) }
    requires may { F.may_force forcer.old key }
    ensures asked { AskedFirst F.forces (key ∷ []) forcer.old forcer.new }
    ensures through { IfOk result (λ o. EachAnswered F.forces forcer.old (key ∷ []) forcer.new) }
    ensures found { IfOk result (λ o. IsBigAnswer key o) }
{
    let cell = forcer.force(key)?;
    match &cell.get().outcome {
        Outcome::Over(over) => Ok(Found::Over(copy_over(alloc, over)?)),
        Outcome::Value(_) => Ok(Found::Value(big_chain(cell.get()).clone()?)),
    }
}
