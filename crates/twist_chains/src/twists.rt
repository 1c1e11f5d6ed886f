// The twist of a circle bundle on pairs of simplices of base and fibre.
ghost use Rattle.std.specs.Prelude.{◌≡◌, ℕ, ◌+◌, ◌≤◌, ◌^◌, ◌++◌, ℤ, List, length, IfOk, OnOk};
ghost use Rattle.fp_field.specs.Field.{number};
ghost use Rattle.fp_field.specs.Chains.{EachKey};
ghost use Rattle.fp_field.specs.Normal.{normal};
ghost use Rattle.cells.specs.Order.{cell_cmp};
ghost use Rattle.term_lang.specs.Rows.{rows_of};
ghost use Rattle.twist_maps.specs.Values.{AreValues};
ghost use Rattle.twist_chains.specs.Bundles.{IsBundlePair, fibre_integer, twist_on, kept_pair};

use crate::fibres::ints_of;
use cells::{Cell, IntList, Simplex, copy_simplex, degree};
use chain_core::Chain;
use ez_flow::{pair_cell, parts};
use fp_field::{Fp, Prime, neg};
use kz1_group::{ints_face, ints_mul, ints_norm};
use std::alloc::{AllocError, Global};
use term_lang::{Table, table_face};
use twist_maps::cocycle_tau;

/// What the differential of a circle bundle has beside that of the product of its base, a table, and its fibre K(Z,1): on a pair (b, f)
/// of degree n from 1 to 32 it is (d_0 b, t(b) d_0 f) - (d_0 b, d_0 f), where pairs with a common degeneracy are 0 and t is the twisting
/// operator of the cocycle; in degree 0 it is 0 (Rubio and Sergeraert, Constructive Homological Algebra and Applications, chapter 3).
/// There is one value for each row, at most 100,000 in magnitude. The integers of the fibre are at most 2^60 in magnitude, and at most
/// 200,000 more in a term.
pub fn bundle_twist(
    alloc: Global,
    base: &Table,
    values: &IntList,
    p: Prime,
    c: &Cell,
) -> Result<Chain<Cell>, AllocError>
    requires values { AreValues (rows_of base.now) values.now }
    requires pair { (n : ℕ) × IsBundlePair (rows_of base.now) n c.now × (n ≤ 32) }
    requires integers { fibre_integer c.now ≤ 2 ^ 60 }
    ensures prime { IfOk result (λ r. r.prime ≡ p) }
    ensures terms { IfOk result (λ r. r.terms ≡ normal cell_cmp (number p) (twist_on (number p) (rows_of base.now) values.now c.now)) }
    ensures integers { IfOk result (λ r. EachKey (λ t. fibre_integer t ≤ fibre_integer c.now + 200000) r.terms) }
{
    base.rows();
    let (b, f) = parts(c);
    let n = degree(b);
    if n == 0 {
        return Ok(Chain::new(alloc, p));
    }
    let face = table_face(base, 0, b);
    let rest = ints_face(alloc, 0, &ints_of(alloc, n, f)?)?;
    let turned = ints_mul(alloc, &cocycle_tau(alloc, base, values, b)?, &rest)?;
    let one = Fp { value: 1 };
    let minus = neg(p, one);
    let mut terms = Vec::new(alloc);
    push_pair(alloc, &face, ints_norm(alloc, &turned)?, one, &mut terms)?;
    push_pair(alloc, &face, ints_norm(alloc, &rest)?, minus, &mut terms)?;
    Ok(Chain::from_terms(alloc, p, terms)?)
}

// Pushes the pair of two simplices with this number, unless they have a common place.
fn push_pair(
    alloc: Global,
    b: &Simplex,
    f: Simplex,
    a: Fp,
    terms: &mut Vec<(Cell, Fp)>,
) -> Result<(), AllocError>
    ensures { OnOk result (terms.new.items ≡ terms.old.items ++ kept_pair b.now f a) }
{
    if b.degens.mask & f.degens.mask == 0 {
        terms.push((pair_cell(alloc, copy_simplex(alloc, b)?, f)?, a))?;
    }
    Ok(())
}
