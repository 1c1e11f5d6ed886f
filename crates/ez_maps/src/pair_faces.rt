// The differential of pairs.
ghost use Rattle.std.specs.Prelude.{◌≡◌, ℕ, suc, ◌+◌, ◌*◌, ◌<◌, ◌≤◌, [], ◌∷◌, ◌++◌, ◌==◌, cond, All, IfOk, OnOk, bit_and};
ghost use Rattle.fp_field.specs.Field.{number, SameMod};
ghost use Rattle.fp_field.specs.Chains.{weigh, EachKey};
ghost use Rattle.fp_field.specs.Normal.{normal};
ghost use Rattle.spaces.specs.Spaces.{Plain, set_of};
ghost use Rattle.spaces.specs.Orders.{ordered};
ghost use Rattle.spaces.specs.EilenbergZilber.{Pair, is_pair_cell, first_faces, pair_d};
ghost use Rattle.chain_core.specs.Formal.{numbers};
ghost use Rattle.cells.specs.Order.{cell_cmp};
ghost use Rattle.cells.specs.declared.cells.Cell.TheVariants.{Pair as PairCell};
ghost use Rattle.ez_flow.specs.Parts.{left_of, IsPairOf, form_weight};
ghost use Rattle.ez_flow.specs.CodeMaps.{on_cells, cell_for};

use cells::{Cell, Simplex, copy_simplex};
use chain_core::Chain;
use ez_flow::{FlowFaces, pair_cell, parts, signed};
use fp_field::{Fp, Prime, mul};
use std::alloc::{AllocError, Global};

/// Pushes the pair of two simplices with the coefficient c, where no place is in both masks.
fn push_pair(
    alloc: Global,
    left: Simplex,
    right: &Simplex,
    c: Fp,
    into: &mut Vec<(Cell, Fp)>,
) -> Result<(), AllocError>
    ensures { OnOk result (into.new.items ≡ cond (bit_and left.degens.mask right.now.degens.mask == 0)
        (into.old.items ++ (PairCell left right.now, c) ∷ []) into.old.items) }
{
    if left.degens.mask & right.degens.mask != 0 {
        return Ok(());
    }
    let copy = copy_simplex(alloc, right)?;
    into.push((pair_cell(alloc, left, copy)?, c))?;
    Ok(())
}

/// Pushes the terms of face i of a pair of degree n + 1 that are not degenerate, each times k.
fn push_face<X: FlowFaces>(
    alloc: Global,
    x: &X,
    p: Prime,
    n: u32,
    i: u32,
    left: &Simplex,
    right: &Simplex,
    k: Fp,
    into: &mut Vec<(Cell, Fp)>,
) -> Result<(), AllocError>
    requires degree { suc n ≤ X.bound x.now }
    requires index { i ≤ suc n }
    requires left { X.is_left x.now (suc n) left.now }
    requires right { X.is_right x.now (suc n) right.now }
    requires element { k.value < number p }
    requires elements { All (λ t. t.1.value < number p) into.old.items }
    requires pairs { EachKey (IsPairOf (X.is_left x.now) (X.is_right x.now) n) (numbers into.old.items) }
    ensures elements { OnOk result (All (λ t. t.1.value < number p) into.new.items) }
    ensures pairs { OnOk result (EachKey (IsPairOf (X.is_left x.now) (X.is_right x.now) n) (numbers into.new.items)) }
    ensures sum { OnOk result ((w : Pair (Plain (X.left_space x.now)) (Plain (X.right_space x.now)) → ℕ)
        → SameMod (number p) (weigh (form_weight (X.left_form x.now) (X.right_form x.now) n w) (numbers into.new.items))
        (weigh (form_weight (X.left_form x.now) (X.right_form x.now) n w) (numbers into.old.items)
        + k.value * weigh (λ t. cond (is_pair_cell (number p) (left_of (X.has_letters x.now) (number p) (X.left_space x.now)) (ordered (X.right_space x.now))
        (n, t, (set_of (X.right_space x.now)).face i (X.right_form x.now right.now))) (w (n, t, (set_of (X.right_space x.now)).face i (X.right_form x.now right.now))) 0)
        ((left_of (X.has_letters x.now) (number p) (X.left_space x.now)).faces (suc n) i (X.left_form x.now left.now)))) }
{
    let y = x.right_face(alloc, i, right)?;
    let mut faces = x.left_face(alloc, p, i, left)?.into_terms();
    while let Some((z, c)) = faces.pop() {
        push_pair(alloc, z, &y, mul(p, k, c), into)?;
    }
    Ok(())
}

/// Pushes the faces of a pair of degree n + 1 that are not degenerate, each with its sign and times k.
fn push_faces<X: FlowFaces>(
    alloc: Global,
    x: &X,
    p: Prime,
    n: u32,
    left: &Simplex,
    right: &Simplex,
    k: Fp,
    into: &mut Vec<(Cell, Fp)>,
) -> Result<(), AllocError>
    requires degree { suc n ≤ X.bound x.now }
    requires left { X.is_left x.now (suc n) left.now }
    requires right { X.is_right x.now (suc n) right.now }
    requires element { k.value < number p }
    requires elements { All (λ t. t.1.value < number p) into.old.items }
    requires pairs { EachKey (IsPairOf (X.is_left x.now) (X.is_right x.now) n) (numbers into.old.items) }
    ensures elements { OnOk result (All (λ t. t.1.value < number p) into.new.items) }
    ensures pairs { OnOk result (EachKey (IsPairOf (X.is_left x.now) (X.is_right x.now) n) (numbers into.new.items)) }
    ensures sum { OnOk result ((w : Pair (Plain (X.left_space x.now)) (Plain (X.right_space x.now)) → ℕ)
        → SameMod (number p) (weigh (form_weight (X.left_form x.now) (X.right_form x.now) n w) (numbers into.new.items))
        (weigh (form_weight (X.left_form x.now) (X.right_form x.now) n w) (numbers into.old.items)
        + k.value * weigh (λ t. cond (is_pair_cell (number p) (left_of (X.has_letters x.now) (number p) (X.left_space x.now)) (ordered (X.right_space x.now)) t) (w t) 0)
        (first_faces (number p) (left_of (X.has_letters x.now) (number p) (X.left_space x.now)) (ordered (X.right_space x.now)) (suc (suc n))
        (suc n, X.left_form x.now left.now, X.right_form x.now right.now)))) }
{
    for i in 0..n + 2 {
        push_face(alloc, x, p, n, i, left, right, signed(p, i, k), into)?;
    }
    Ok(())
}

/// The differential of a pair of degree at most the bound: the alternating sum of its faces, where
/// degenerate pairs count as 0. In degree 0 it is 0.
pub(crate) fn pair_boundary<X: FlowFaces>(
    alloc: Global,
    x: &X,
    p: Prime,
    c: &Cell,
) -> Result<Chain<Cell>, AllocError>
    requires { (n : ℕ) × IsPairOf (X.is_left x.now) (X.is_right x.now) n c.now × (n ≤ X.bound x.now) }
    ensures prime { IfOk result (λ r. r.prime ≡ p) }
    ensures terms { IfOk result (λ r. r.terms ≡ normal cell_cmp (number p) (on_cells (X.left_degree_of x.now) (X.left_form x.now) (X.right_form x.now)
        (cell_for (X.left_simplex x.now) (X.right_simplex x.now))
        (pair_d (number p) (left_of (X.has_letters x.now) (number p) (X.left_space x.now)) (ordered (X.right_space x.now))) c.now)) }
{
    let (a, b) = parts(c);
    let n = a.degens.mask.count_ones() + x.left_degree(&a.cell);
    if n == 0 {
        return Ok(Chain::new(alloc, p));
    }
    let mut terms = Vec::new(alloc);
    push_faces(alloc, x, p, n - 1, a, b, Fp { value: 1 }, &mut terms)?;
    Chain::from_terms(alloc, p, terms)
}
