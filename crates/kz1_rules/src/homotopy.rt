// The homotopy H of a list.
ghost use Rattle.std.specs.Prelude.{◌≡◌, ◌<◌, ◌≤◌, ℕ, ℤ, List, [], ◌∷◌, All, IfOk, map, pos, neg_ℤ, cond, false};
ghost use Rattle.fp_field.specs.Field.{number};
ghost use Rattle.fp_field.specs.Normal.{normal};
ghost use Rattle.chain_core.specs.Formal.{numbers};
ghost use Rattle.spaces.specs.Spaces.{kz1};
ghost use Rattle.spaces.specs.Orders.{ordered, by_degree};
ghost use Rattle.values.specs.Integers.{integers_h};
ghost use Rattle.oracle_iface.specs.Keys.{quote_chain, formal};
ghost use Rattle.kz1_rules.specs.Lists.{IsFree, homotopy_count, ones, terms_beyond};

use chain_core::Chain;
use fp_field::{Fp, Prime, value};
use seqs::new_seq;
use std::alloc::{AllocError, Global};
use term_lang::{Cell, IntList};

/// How many terms H of a list has: one less than the first integer where that is positive, and its
/// magnitude where it is negative.
pub(crate) fn term_count(list: &IntList) -> u64
    ensures { result ≡ homotopy_count list.now }
{
    let items = list.as_slice();
    if items.len() == 0 {
        return 0;
    }
    if items[0] > 0 {
        items[0].unsigned_abs() - 1
    } else {
        items[0].unsigned_abs()
    }
}

/// The list |1|n|w|.
fn after_one(alloc: Global, n: i64, rest: &[i64]) -> Result<IntList, AllocError>
    ensures { IfOk result (λ x. x ≡ pos 1 ∷ (n ∷ rest.now)) }
{
    let mut list = new_seq(alloc);
    list.push(1)?;
    list.push(n)?;
    for k in rest {
        list.push(*k)?;
    }
    Ok(list)
}

/// The integer of this magnitude.
fn integer(is_negative: bool, magnitude: u32) -> i64
    ensures { result ≡ cond is_negative (neg_ℤ (pos magnitude)) (pos magnitude) }
{
    if is_negative {
        -i64::from(magnitude)
    } else {
        i64::from(magnitude)
    }
}

/// The terms |1|n|w|, with one coefficient, for n from the count down to 1, or from minus the count up
/// to -1.
fn terms_after_one(
    alloc: Global,
    is_negative: bool,
    count: u32,
    rest: &[i64],
    coefficient: Fp,
) -> Result<Vec<(Cell, Fp)>, AllocError>
    ensures terms { IfOk result (λ v. numbers v.items ≡ terms_beyond rest.now coefficient.value (ones is_negative count)) }
    ensures coefficients { IfOk result (λ v. All (λ t. t.1.value ≡ coefficient.value) v.items) }
{
    let mut terms = Vec::with_capacity(alloc, count as usize)?;
    for i in 0..count {
        let list = after_one(alloc, integer(is_negative, count - i), rest)?;
        terms.push((Cell::Ints(list), coefficient))?;
    }
    Ok(terms)
}

/// H of a list: minus the sum of |1|n|w| for n from 1 to a - 1, where it begins with a positive a, and
/// the sum of |1|n|w| for n from a to -1, where a is negative.
pub(crate) fn homotopy(alloc: Global, p: Prime, list: &IntList) -> Result<Chain<Cell>, AllocError>
    requires free { IsFree list.now }
    requires count { homotopy_count list.now ≤ 100000 }
    ensures { IfOk result (λ c. c ≡ formal p (quote_chain kz1 (normal (by_degree (ordered kz1).cmp) (number p) (integers_h (number p) list.now)))) }
{
    let items = list.as_slice();
    if items.len() == 0 {
        return Ok(Chain::new(alloc, p));
    }
    let is_negative = items[0] < 0;
    let coefficient = if is_negative { 1 } else { value(p) - 1 };
    let terms = terms_after_one(
        alloc,
        is_negative,
        term_count(list) as u32,
        &items[1..],
        Fp { value: coefficient },
    )?;
    Chain::from_terms(alloc, p, terms)
}
