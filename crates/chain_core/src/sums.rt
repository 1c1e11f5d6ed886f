// Sums of lists of terms in normal form.
ghost use Rattle.std.specs.Prelude.{◌≡◌, ◌++◌, ◌<◌, ◌∷◌, [], OnOk, OnErr, IfOk, reverse};
ghost use Rattle.fp_field.specs.Field.{number};
ghost use Rattle.fp_field.specs.Chains.{scale};
ghost use Rattle.fp_field.specs.Normal.{put, add_term, normal, IsNormal};
ghost use Rattle.chain_core.specs.Formal.{numbers};

use crate::places::place_of;
use fp_field::{Fp, Prime, add, mul};
use std::alloc::AllocError;
use std::cmp::Ordering;

/// Adds c to the number at a key.
pub fn add_to<K: Ord + Drop>(
    p: Prime,
    terms: &mut Vec<(K, Fp)>,
    k: K,
    c: Fp,
) -> Result<(), AllocError>
    requires element { c.value < number p }
    requires normal { IsNormal K.cmp (number p) (numbers terms.old.items) }
    ensures sum { OnOk result (numbers terms.new.items ≡ add_term K.cmp (number p) k c.value (numbers terms.old.items)) }
    ensures err { OnErr result (terms.new.items ≡ terms.old.items) }
{
    match place_of(terms, &k) {
        Ok(i) => {
            let sum = add(p, c, terms[i].1);
            if sum.value == 0 {
                terms.remove(i);
            } else {
                terms[i].1 = sum;
            }
        }
        Err(i) => {
            if c.value != 0 {
                terms.insert(i, (k, c))?;
            }
        }
    }
    Ok(())
}

/// Multiplies each number by c.
pub fn multiply<K: Ord + Drop>(p: Prime, terms: &mut Vec<(K, Fp)>, c: Fp)
    requires element { c.value < number p }
    requires normal { IsNormal K.cmp (number p) (numbers terms.old.items) }
    ensures { numbers terms.new.items ≡ normal K.cmp (number p) (scale c.value (numbers terms.old.items)) }
{
    if c.value == 0 {
        terms.clear();
        return;
    }
    for i in 0..terms.len() {
        terms[i].1 = mul(p, c, terms[i].1);
    }
}

/// Pushes a term, unless its number is 0.
fn push_nonzero<K: Ord + Drop>(
    terms: &mut Vec<(K, Fp)>,
    key: K,
    number: Fp,
) -> Result<(), AllocError>
    ensures { (p : _) → OnOk result (numbers (reverse terms.new.items) ≡ put K.cmp p key number.value (numbers (reverse terms.old.items))) }
{
    if number.value != 0 {
        terms.push((key, number))?;
    }
    Ok(())
}

/// Adds c times the other terms, from the highest key down: what is left of the terms, and then what is
/// returned, is the sum.
pub fn merge_ends<K: Ord + Clone>(
    p: Prime,
    terms: &mut Vec<(K, Fp)>,
    others: &[(K, Fp)],
    c: Fp,
) -> Result<Vec<(K, Fp)>, AllocError>
    requires element { c.value < number p }
    requires normal { IsNormal K.cmp (number p) (numbers terms.old.items) }
    requires others { IsNormal K.cmp (number p) (numbers others.now) }
    requires clones { (x y : K) → K.is_clone x y → y ≡ x }
    ensures sum { IfOk result (λ ends. numbers terms.new.items ++ numbers ends.items ≡ normal K.cmp (number p) (scale c.value (numbers others.now) ++ numbers terms.old.items)) }
    ensures normal { IsNormal K.cmp (number p) (numbers terms.new.items) }
{
    terms.reserve(others.len())?;
    let mut ends = Vec::with_capacity(*terms.allocator(), others.len())?;
    let mut left = others.len();
    while left > 0 {
        let (key, coefficient) = &others[left - 1];
        let product = mul(p, c, *coefficient);
        match terms.pop() {
            None => {
                left -= 1;
                push_nonzero(&mut ends, key.clone()?, product)?;
            }
            Some((own, number)) => match own.cmp(key) {
                Ordering::Less => {
                    left -= 1;
                    terms.push((own, number))?;
                    push_nonzero(&mut ends, key.clone()?, product)?;
                }
                Ordering::Equal => {
                    left -= 1;
                    push_nonzero(&mut ends, own, add(p, product, number))?;
                }
                Ordering::Greater => ends.push((own, number))?,
            },
        }
    }
    ends.reverse();
    Ok(ends)
}
