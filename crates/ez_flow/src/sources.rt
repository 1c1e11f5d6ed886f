// Sources among the pairs of simplices, and the faces that are sources.
ghost use Rattle.std.specs.Prelude.{◌≡◌, ℕ, suc, ◌+◌, ◌*◌, ◌<◌, ◌≤◌, ◌^◌, [], ◌∷◌, ◌++◌, cond, false, All, IfOk, OnOk};
ghost use Rattle.fp_field.specs.Field.{number, SameMod, sign};
ghost use Rattle.fp_field.specs.Chains.{weigh, EachKey};
ghost use Rattle.spaces.specs.Spaces.{Plain, set_of};
ghost use Rattle.spaces.specs.Orders.{ordered};
ghost use Rattle.spaces.specs.EilenbergZilber.{Pair, first_faces};
ghost use Rattle.simp_ops.specs.Bits.{bit, inserted};
ghost use Rattle.chain_core.specs.Formal.{numbers};
ghost use Rattle.cells.specs.declared.cells.Cell.TheVariants.{Pair as PairCell};
ghost use Rattle.ez_flow.specs.Parts.{left_of, IsSourceOf, form_weight};
ghost use Rattle.ez_flow.specs.Sources.{are_source, source_weight};

use crate::faces::FlowFaces;
use cells::{Cell, Simplex, copy_cell, copy_simplex};
use fp_field::{Fp, Prime, mul, neg};
use path_words::{PathEvent, PathWord, event_of};
use seqs::Box;
use simp_ops::Degens;
use std::alloc::{AllocError, Global};

/// Whether a pair of degree n with these masks is a source.
pub(crate) fn is_source(n: u32, left: Degens, right: Degens) -> bool
    requires short { n ≤ 31 }
    requires left { left.mask < 2 ^ n }
    requires right { right.mask < 2 ^ n }
    ensures { result ≡ are_source n left.mask right.mask }
{
    if left.mask & right.mask != 0 {
        return false;
    }
    let word = PathWord {
        len: n,
        left,
        right,
    };
    match event_of(&word) {
        PathEvent::Source(_) => true,
        _ => false,
    }
}

/// The cell of two simplices.
pub fn pair_cell(alloc: Global, left: Simplex, right: Simplex) -> Result<Cell, AllocError>
    ensures { IfOk result (λ c. c ≡ PairCell left right) }
{
    let left = Box::new(alloc, left)?;
    let right = Box::new(alloc, right)?;
    Ok(Cell::Pair(left, right))
}

/// Pushes the pair of two simplices of degree n with the coefficient c, where it is a source.
fn push_source(
    alloc: Global,
    n: u32,
    left: Simplex,
    right: &Simplex,
    c: Fp,
    into: &mut Vec<(Cell, Fp)>,
) -> Result<(), AllocError>
    requires short { n ≤ 31 }
    requires left { left.degens.mask < 2 ^ n }
    requires right { right.now.degens.mask < 2 ^ n }
    ensures { OnOk result (into.new.items ≡ cond (are_source n left.degens.mask right.now.degens.mask)
        (into.old.items ++ (PairCell left right.now, c) ∷ []) into.old.items) }
{
    if !is_source(n, left.degens, right.degens) {
        return Ok(());
    }
    let copy = copy_simplex(alloc, right)?;
    into.push((pair_cell(alloc, left, copy)?, c))?;
    Ok(())
}

/// Pushes the terms of face i of a pair of degree n + 1 that are sources, each times k.
pub(crate) fn add_face<X: FlowFaces>(
    alloc: Global,
    x: &X,
    p: Prime,
    n: u32,
    i: u32,
    left: &Simplex,
    right: &Simplex,
    k: Fp,
    into: &mut Vec<(Cell, Fp)>,
) -> Result<(), AllocError>
    requires degree { suc n ≤ X.bound x.now }
    requires index { i ≤ suc n }
    requires left { X.is_left x.now (suc n) left.now }
    requires right { X.is_right x.now (suc n) right.now }
    requires element { k.value < number p }
    requires elements { All (λ t. t.1.value < number p) into.old.items }
    requires pairs { EachKey (IsSourceOf (X.is_left x.now) (X.is_right x.now) n) (numbers into.old.items) }
    ensures elements { OnOk result (All (λ t. t.1.value < number p) into.new.items) }
    ensures pairs { OnOk result (EachKey (IsSourceOf (X.is_left x.now) (X.is_right x.now) n) (numbers into.new.items)) }
    ensures sum { OnOk result ((w : Pair (Plain (X.left_space x.now)) (Plain (X.right_space x.now)) → ℕ)
        → SameMod (number p) (weigh (form_weight (X.left_form x.now) (X.right_form x.now) n w) (numbers into.new.items))
        (weigh (form_weight (X.left_form x.now) (X.right_form x.now) n w) (numbers into.old.items)
        + k.value * weigh (λ t. source_weight (number p) (left_of (X.has_letters x.now) (number p) (X.left_space x.now)) (ordered (X.right_space x.now)) w
        (n, t, (set_of (X.right_space x.now)).face i (X.right_form x.now right.now)))
        ((left_of (X.has_letters x.now) (number p) (X.left_space x.now)).faces (suc n) i (X.left_form x.now left.now)))) }
{
    let y = x.right_face(alloc, i, right)?;
    let mut faces = x.left_face(alloc, p, i, left)?.into_terms();
    while let Some((z, c)) = faces.pop() {
        push_source(alloc, n, z, &y, mul(p, k, c), into)?;
    }
    Ok(())
}

/// (-1)^i k.
pub fn signed(p: Prime, i: u32, k: Fp) -> Fp
    requires { k.value < number p }
    ensures element { result.value < number p }
    ensures value { SameMod (number p) result.value (sign (number p) i * k.value) }
{
    if i % 2 == 0 { k } else { neg(p, k) }
}

/// The simplex with s_j put in.
pub(crate) fn raised(alloc: Global, j: u32, s: &Simplex) -> Result<Simplex, AllocError>
    requires index { j < 32 }
    requires room { bit s.now.degens.mask 31 ≡ false }
    ensures cell { IfOk result (λ t. t.cell ≡ s.now.cell) }
    ensures places { IfOk result (λ t. (k : ℕ) → bit t.degens.mask k ≡ inserted j (bit s.now.degens.mask) k) }
{
    let cell = copy_cell(alloc, &s.cell)?;
    Ok(Simplex {
        degens: s.degens.with(j),
        cell,
    })
}

/// Pushes the sources among the faces of a pair of degree n + 1, each with its sign and times k.
pub(crate) fn add_faces<X: FlowFaces>(
    alloc: Global,
    x: &X,
    p: Prime,
    n: u32,
    left: &Simplex,
    right: &Simplex,
    k: Fp,
    into: &mut Vec<(Cell, Fp)>,
) -> Result<(), AllocError>
    requires degree { suc n ≤ X.bound x.now }
    requires left { X.is_left x.now (suc n) left.now }
    requires right { X.is_right x.now (suc n) right.now }
    requires element { k.value < number p }
    requires elements { All (λ t. t.1.value < number p) into.old.items }
    requires pairs { EachKey (IsSourceOf (X.is_left x.now) (X.is_right x.now) n) (numbers into.old.items) }
    ensures elements { OnOk result (All (λ t. t.1.value < number p) into.new.items) }
    ensures pairs { OnOk result (EachKey (IsSourceOf (X.is_left x.now) (X.is_right x.now) n) (numbers into.new.items)) }
    ensures sum { OnOk result ((w : Pair (Plain (X.left_space x.now)) (Plain (X.right_space x.now)) → ℕ)
        → SameMod (number p) (weigh (form_weight (X.left_form x.now) (X.right_form x.now) n w) (numbers into.new.items))
        (weigh (form_weight (X.left_form x.now) (X.right_form x.now) n w) (numbers into.old.items)
        + k.value * weigh (source_weight (number p) (left_of (X.has_letters x.now) (number p) (X.left_space x.now)) (ordered (X.right_space x.now)) w)
        (first_faces (number p) (left_of (X.has_letters x.now) (number p) (X.left_space x.now)) (ordered (X.right_space x.now)) (suc (suc n))
        (suc n, X.left_form x.now left.now, X.right_form x.now right.now)))) }
{
    for i in 0..n + 2 {
        add_face(alloc, x, p, n, i, left, right, signed(p, i, k), into)?;
    }
    Ok(())
}
