// Alexander-Whitney: each pair is cut at each place.
ghost use Rattle.std.specs.Prelude.{◌≡◌, ℕ, suc, ◌+◌, ◌-◌, ◌*◌, ◌<◌, ◌≤◌, [], ◌∷◌, ◌++◌, ◌==◌, cond, All, IfOk, OnOk, bit_and};
ghost use Rattle.fp_field.specs.Field.{number, SameMod};
ghost use Rattle.fp_field.specs.Chains.{weigh, EachKey};
ghost use Rattle.fp_field.specs.Normal.{normal};
ghost use Rattle.spaces.specs.Spaces.{Plain};
ghost use Rattle.spaces.specs.Orders.{ordered};
ghost use Rattle.spaces.specs.EilenbergZilber.{Tensor as PlainTensor, front, back as back_of, cuts, aw as aw_of, is_tensor_cell};
ghost use Rattle.chain_core.specs.Formal.{numbers};
ghost use Rattle.cells.specs.Dim.{dim_of};
ghost use Rattle.ez_flow.specs.Parts.{left_of, IsPairOf, form_weight};
ghost use Rattle.ez_flow.specs.CodeMaps.{on_cells, left_cell_degree};
ghost use Rattle.ez_maps.specs.Tensors.{tensor_cmp, IsTensorOf, tensor_form, tensor_for};
ghost use Rattle.ez_maps.specs.Cuts.{cut_term};

use cells::{Cell, Simplex, copy_cell, copy_simplex};
use chain_core::Chain;
use ez_flow::{FlowFaces, parts};
use fp_field::{Fp, Prime, mul};
use std::alloc::{AllocError, Global};
use tensor_red::Tensor;

/// Pushes the tensor of the cells of two simplices with the coefficient c, where the left one is not
/// degenerate.
fn push_tensor(
    alloc: Global,
    left: &Simplex,
    right: &Simplex,
    c: Fp,
    into: &mut Vec<(Tensor<Cell, Cell>, Fp)>,
) -> Result<(), AllocError>
    ensures { OnOk result (into.new.items ≡ into.old.items ++ cut_term right.now left.now c) }
{
    if left.degens.mask != 0 {
        return Ok(());
    }
    let tensor = Tensor {
        left: copy_cell(alloc, &left.cell)?,
        right: copy_cell(alloc, &right.cell)?,
    };
    into.push((tensor, c))?;
    Ok(())
}

/// Pushes d_(i+1) of a left simplex of degree i + 1, times c.
fn push_last_face<X: FlowFaces>(
    alloc: Global,
    x: &X,
    p: Prime,
    i: u32,
    s: Simplex,
    c: Fp,
    into: &mut Vec<(Simplex, Fp)>,
) -> Result<(), AllocError>
    requires degree { suc i ≤ X.bound x.now }
    requires left { X.is_left x.now (suc i) s }
    requires element { c.value < number p }
    requires elements { All (λ t. t.1.value < number p) into.old.items }
    requires simplices { EachKey (X.is_left x.now i) (numbers into.old.items) }
    ensures elements { OnOk result (All (λ t. t.1.value < number p) into.new.items) }
    ensures simplices { OnOk result (EachKey (X.is_left x.now i) (numbers into.new.items)) }
    ensures sum { OnOk result ((w : Plain (X.left_space x.now) → ℕ)
        → SameMod (number p) (weigh (λ t. w (X.left_form x.now t)) (numbers into.new.items))
        (weigh (λ t. w (X.left_form x.now t)) (numbers into.old.items)
        + c.value * weigh w ((left_of (X.has_letters x.now) (number p) (X.left_space x.now)).faces (suc i) (suc i) (X.left_form x.now s)))) }
{
    let mut faces = x.left_face(alloc, p, i + 1, &s)?.into_terms();
    while let Some((z, k)) = faces.pop() {
        into.push((z, mul(p, c, k)))?;
    }
    Ok(())
}

/// d_(i+1) of a chain of left simplices of degree i + 1.
fn last_faces<X: FlowFaces>(
    alloc: Global,
    x: &X,
    p: Prime,
    i: u32,
    chain: Vec<(Simplex, Fp)>,
) -> Result<Vec<(Simplex, Fp)>, AllocError>
    requires degree { suc i ≤ X.bound x.now }
    requires chain_elements { All (λ t. t.1.value < number p) chain.items }
    requires simplices { EachKey (X.is_left x.now (suc i)) (numbers chain.items) }
    ensures elements { IfOk result (λ faces. All (λ t. t.1.value < number p) faces.items) }
    ensures simplices { IfOk result (λ faces. EachKey (X.is_left x.now i) (numbers faces.items)) }
    ensures sum { IfOk result (λ faces. (w : Plain (X.left_space x.now) → ℕ)
        → SameMod (number p) (weigh (λ t. w (X.left_form x.now t)) (numbers faces.items))
        (weigh (λ t. weigh w ((left_of (X.has_letters x.now) (number p) (X.left_space x.now)).faces (suc i) (suc i) (X.left_form x.now t))) (numbers chain.items))) }
{
    let mut left = chain;
    let mut faces = Vec::new(alloc);
    while let Some((s, c)) = left.pop() {
        push_last_face(alloc, x, p, i, s, c, &mut faces)?;
    }
    Ok(faces)
}

/// Pushes the tensors of a chain of left simplices of degree i with a right simplex of degree k, where
/// both are not degenerate.
fn push_tensors<X: FlowFaces>(
    alloc: Global,
    x: &X,
    p: Prime,
    i: u32,
    k: u32,
    chain: &[(Simplex, Fp)],
    right: &Simplex,
    into: &mut Vec<(Tensor<Cell, Cell>, Fp)>,
) -> Result<(), AllocError>
    requires short { i + k ≤ X.bound x.now }
    requires simplices { EachKey (X.is_left x.now i) (numbers chain.now) }
    requires right { X.is_right x.now k right.now }
    requires elements { All (λ t. t.1.value < number p) chain.now }
    requires old_elements { All (λ t. t.1.value < number p) into.old.items }
    requires old_tensors { EachKey (IsTensorOf (X.is_left x.now) (X.is_right x.now) (X.left_degree_of x.now) (i + k)) (numbers into.old.items) }
    ensures elements { OnOk result (All (λ t. t.1.value < number p) into.new.items) }
    ensures tensors { OnOk result (EachKey (IsTensorOf (X.is_left x.now) (X.is_right x.now) (X.left_degree_of x.now) (i + k)) (numbers into.new.items)) }
    ensures sum { OnOk result ((w : PlainTensor (Plain (X.left_space x.now)) (Plain (X.right_space x.now)) → ℕ)
        → weigh (λ t. w (tensor_form (X.left_degree_of x.now) (X.left_form x.now) (X.right_form x.now) t)) (numbers into.new.items)
        ≡ weigh (λ t. w (tensor_form (X.left_degree_of x.now) (X.left_form x.now) (X.right_form x.now) t)) (numbers into.old.items)
        + weigh (λ s. cond (is_tensor_cell (number p) (left_of (X.has_letters x.now) (number p) (X.left_space x.now)) (ordered (X.right_space x.now))
        (i, X.left_form x.now s, k, X.right_form x.now right.now)) (w (i, X.left_form x.now s, k, X.right_form x.now right.now)) 0) (numbers chain.now)) }
{
    if right.degens.mask != 0 {
        return Ok(());
    }
    for (s, c) in chain {
        push_tensor(alloc, s, right, *c, into)?;
    }
    Ok(())
}

/// The chain of one simplex.
fn one_simplex(alloc: Global, a: &Simplex) -> Result<Vec<(Simplex, Fp)>, AllocError>
    ensures { IfOk result (λ chain. chain.items ≡ (a.now, record { value = 1 }) ∷ []) }
{
    let mut chain = Vec::new(alloc);
    chain.push((copy_simplex(alloc, a)?, Fp { value: 1 }))?;
    Ok(chain)
}

/// Pushes the cuts of a pair of degree n at the places from i to n, and gives the front at place i: the
/// back at place i is handed in.
fn push_cuts<X: FlowFaces>(
    alloc: Global,
    x: &X,
    p: Prime,
    n: u32,
    i: u32,
    a: &Simplex,
    back: &Simplex,
    into: &mut Vec<(Tensor<Cell, Cell>, Fp)>,
) -> Result<Vec<(Simplex, Fp)>, AllocError>
    requires degree { n ≤ X.bound x.now }
    requires place { i ≤ n }
    requires left { X.is_left x.now n a.now }
    requires right { X.is_right x.now (n - i) back.now }
    requires old_elements { All (λ t. t.1.value < number p) into.old.items }
    requires old_tensors { EachKey (IsTensorOf (X.is_left x.now) (X.is_right x.now) (X.left_degree_of x.now) n) (numbers into.old.items) }
    ensures front_elements { IfOk result (λ chain. All (λ t. t.1.value < number p) chain.items) }
    ensures front_simplices { IfOk result (λ chain. EachKey (X.is_left x.now i) (numbers chain.items)) }
    ensures front { IfOk result (λ chain. (w : Plain (X.left_space x.now) → ℕ)
        → SameMod (number p) (weigh (λ t. w (X.left_form x.now t)) (numbers chain.items))
        (weigh w (front (number p) (left_of (X.has_letters x.now) (number p) (X.left_space x.now)) (ordered (X.right_space x.now)) i (n - i) (X.left_form x.now a.now)))) }
    ensures elements { OnOk result (All (λ t. t.1.value < number p) into.new.items) }
    ensures tensors { OnOk result (EachKey (IsTensorOf (X.is_left x.now) (X.is_right x.now) (X.left_degree_of x.now) n) (numbers into.new.items)) }
    ensures cuts { OnOk result ((y : Plain (X.right_space x.now)) → X.right_form x.now back.now ≡ back_of (number p) (left_of (X.has_letters x.now) (number p) (X.left_space x.now)) (ordered (X.right_space x.now)) i y
        → (w : PlainTensor (Plain (X.left_space x.now)) (Plain (X.right_space x.now)) → ℕ)
        → SameMod (number p)
        (weigh (λ t. w (tensor_form (X.left_degree_of x.now) (X.left_form x.now) (X.right_form x.now) t)) (numbers into.new.items)
        + weigh (λ z. cond (is_tensor_cell (number p) (left_of (X.has_letters x.now) (number p) (X.left_space x.now)) (ordered (X.right_space x.now)) z) (w z) 0)
        (cuts (number p) (left_of (X.has_letters x.now) (number p) (X.left_space x.now)) (ordered (X.right_space x.now)) i (n, X.left_form x.now a.now, y)))
        (weigh (λ t. w (tensor_form (X.left_degree_of x.now) (X.left_form x.now) (X.right_form x.now) t)) (numbers into.old.items)
        + weigh (λ z. cond (is_tensor_cell (number p) (left_of (X.has_letters x.now) (number p) (X.left_space x.now)) (ordered (X.right_space x.now)) z) (w z) 0)
        (cuts (number p) (left_of (X.has_letters x.now) (number p) (X.left_space x.now)) (ordered (X.right_space x.now)) (suc n) (n, X.left_form x.now a.now, y)))) }
{
    if i == n {
        let whole = one_simplex(alloc, a)?;
        push_tensors(alloc, x, p, i, 0, &whole, back, into)?;
        return Ok(whole);
    }
    let next = x.right_face(alloc, 0, back)?;
    let upper = push_cuts(alloc, x, p, n, i + 1, a, &next, into)?;
    let front = last_faces(alloc, x, p, i, upper)?;
    push_tensors(alloc, x, p, i, n - i, &front, back, into)?;
    Ok(front)
}

/// Alexander-Whitney on a pair of a left and a right simplex of degree n, with n at most the bound: the
/// sum over i from 0 to n of the front of degree i of the left one, which is d_(i+1) .. d_n of it, with
/// the back of degree n - i of the right one, which is d_0 of it taken i times (Eilenberg and Mac Lane
/// 1953; May, Simplicial Objects, chapter VI, 29). Degenerate parts give 0. The terms are the tensors of
/// the map on the forms, and no left cell of theirs has a larger dimension than that of the argument.
pub fn aw<X: FlowFaces>(
    alloc: Global,
    x: &X,
    p: Prime,
    c: &Cell,
) -> Result<Chain<Tensor<Cell, Cell>>, AllocError>
    requires { (n : ℕ) × IsPairOf (X.is_left x.now) (X.is_right x.now) n c.now × (n ≤ X.bound x.now) }
    ensures prime { IfOk result (λ r. r.prime ≡ p) }
    ensures tensors { IfOk result (λ r. (n : ℕ) → IsPairOf (X.is_left x.now) (X.is_right x.now) n c.now
        → EachKey (IsTensorOf (X.is_left x.now) (X.is_right x.now) (X.left_degree_of x.now) n) r.terms) }
    ensures aw { IfOk result (λ r. (n : ℕ) → IsPairOf (X.is_left x.now) (X.is_right x.now) n c.now
        → (w : PlainTensor (Plain (X.left_space x.now)) (Plain (X.right_space x.now)) → ℕ)
        → SameMod (number p) (weigh (λ t. w (tensor_form (X.left_degree_of x.now) (X.left_form x.now) (X.right_form x.now) t)) r.terms)
        (form_weight (X.left_form x.now) (X.right_form x.now) n
        (λ s. weigh w (aw_of (number p) (left_of (X.has_letters x.now) (number p) (X.left_space x.now)) (ordered (X.right_space x.now)) s)) c.now)) }
    ensures terms { IfOk result (λ r. r.terms ≡ normal tensor_cmp (number p) (on_cells (X.left_degree_of x.now) (X.left_form x.now) (X.right_form x.now)
        (tensor_for (X.left_simplex x.now) (X.right_simplex x.now))
        (aw_of (number p) (left_of (X.has_letters x.now) (number p) (X.left_space x.now)) (ordered (X.right_space x.now))) c.now)) }
    ensures left_cells { IfOk result (λ r. EachKey (λ t. X.left_degree_of x.now t.left ≤ left_cell_degree (X.left_degree_of x.now) c.now) r.terms) }
{
    let (a, b) = parts(c);
    let n = a.degens.mask.count_ones() + x.left_degree(&a.cell);
    let mut terms = Vec::new(alloc);
    let _ = push_cuts(alloc, x, p, n, 0, a, b, &mut terms)?;
    Chain::from_terms(alloc, p, terms)
}
