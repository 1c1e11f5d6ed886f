// The differential of tensors.
ghost use Rattle.std.specs.Prelude.{◌≡◌, ℕ, suc, ◌+◌, ◌-◌, ◌*◌, ◌<◌, ◌≤◌, [], ◌∷◌, ◌++◌, ◌==◌, cond, All, IfOk, OnOk};
ghost use Rattle.fp_field.specs.Field.{number, SameMod};
ghost use Rattle.fp_field.specs.Chains.{weigh, EachKey};
ghost use Rattle.fp_field.specs.Normal.{normal};
ghost use Rattle.spaces.specs.Spaces.{Plain, set_of};
ghost use Rattle.spaces.specs.Orders.{ordered};
ghost use Rattle.spaces.specs.EilenbergZilber.{Tensor as PlainTensor, is_tensor_cell};
ghost use Rattle.chain_core.specs.Formal.{numbers};
ghost use Rattle.cells.specs.Dim.{dim_of};
ghost use Rattle.ez_laws.specs.Complexes.{left_faces, right_faces, left_d, right_d, tensor_d};
ghost use Rattle.ez_flow.specs.Parts.{left_of, left_in};
ghost use Rattle.ez_maps.specs.Tensors.{bare, tensor_cmp, IsTensorOf, tensor_form, tensor_for, on_tensors};

use cells::{Cell, Simplex, copy_cell, dim};
use chain_core::Chain;
use ez_flow::{FlowFaces, signed};
use fp_field::{Fp, Prime, mul};
use simp_ops::Degens;
use std::alloc::{AllocError, Global};
use tensor_red::Tensor;

/// The simplex of a cell, without degeneracies.
fn bare_simplex(alloc: Global, c: &Cell) -> Result<Simplex, AllocError>
    ensures { IfOk result (λ s. s ≡ bare c.now) }
{
    Ok(Simplex {
        degens: Degens { mask: 0 },
        cell: copy_cell(alloc, c)?,
    })
}

/// Pushes the tensor of the cells of two simplices, where the left one is not degenerate.
fn push_left_term(
    alloc: Global,
    left: Simplex,
    right: &Simplex,
    c: Fp,
    into: &mut Vec<(Tensor<Cell, Cell>, Fp)>,
) -> Result<(), AllocError>
    ensures { OnOk result (into.new.items ≡ cond (left.degens.mask == 0)
        (into.old.items ++ (record { left = left.cell; right = right.now.cell }, c) ∷ []) into.old.items) }
{
    if left.degens.mask != 0 {
        return Ok(());
    }
    let tensor = Tensor {
        left: left.cell,
        right: copy_cell(alloc, &right.cell)?,
    };
    into.push((tensor, c))?;
    Ok(())
}

/// Pushes the tensor of the cells of two simplices, where the right one is not degenerate.
fn push_right_term(
    alloc: Global,
    left: &Simplex,
    right: Simplex,
    c: Fp,
    into: &mut Vec<(Tensor<Cell, Cell>, Fp)>,
) -> Result<(), AllocError>
    ensures { OnOk result (into.new.items ≡ cond (right.degens.mask == 0)
        (into.old.items ++ (record { left = left.now.cell; right = right.cell }, c) ∷ []) into.old.items) }
{
    if right.degens.mask != 0 {
        return Ok(());
    }
    let tensor = Tensor {
        left: copy_cell(alloc, &left.cell)?,
        right: right.cell,
    };
    into.push((tensor, c))?;
    Ok(())
}

/// Pushes the tensors of face j of a left simplex of degree i + 1 with a right simplex of degree k that is
/// not degenerate, each times a, where they are not degenerate.
fn push_left_face<X: FlowFaces>(
    alloc: Global,
    x: &X,
    p: Prime,
    i: u32,
    j: u32,
    k: u32,
    left: &Simplex,
    right: &Simplex,
    a: Fp,
    into: &mut Vec<(Tensor<Cell, Cell>, Fp)>,
) -> Result<(), AllocError>
    requires degree { suc i + k ≤ X.bound x.now }
    requires index { j ≤ suc i }
    requires left { X.is_left x.now (suc i) left.now }
    requires right { X.is_right x.now k right.now }
    requires right_plain { right.now.degens.mask ≡ 0 }
    requires element { a.value < number p }
    requires elements { All (λ t. t.1.value < number p) into.old.items }
    requires tensors { EachKey (IsTensorOf (X.is_left x.now) (X.is_right x.now) (X.left_degree_of x.now) (i + k)) (numbers into.old.items) }
    ensures elements { OnOk result (All (λ t. t.1.value < number p) into.new.items) }
    ensures tensors { OnOk result (EachKey (IsTensorOf (X.is_left x.now) (X.is_right x.now) (X.left_degree_of x.now) (i + k)) (numbers into.new.items)) }
    ensures sum { OnOk result ((w : PlainTensor (Plain (X.left_space x.now)) (Plain (X.right_space x.now)) → ℕ)
        → SameMod (number p) (weigh (λ t. w (tensor_form (X.left_degree_of x.now) (X.left_form x.now) (X.right_form x.now) t)) (numbers into.new.items))
        (weigh (λ t. w (tensor_form (X.left_degree_of x.now) (X.left_form x.now) (X.right_form x.now) t)) (numbers into.old.items)
        + a.value * weigh (λ z. cond (is_tensor_cell (number p) (left_of (X.has_letters x.now) (number p) (X.left_space x.now)) (ordered (X.right_space x.now)) (i, z, k, X.right_form x.now right.now)) (w (i, z, k, X.right_form x.now right.now)) 0)
        ((left_of (X.has_letters x.now) (number p) (X.left_space x.now)).faces (suc i) j (X.left_form x.now left.now)))) }
{
    let mut faces = x.left_face(alloc, p, j, left)?.into_terms();
    while let Some((z, c)) = faces.pop() {
        push_left_term(alloc, z, right, mul(p, a, c), into)?;
    }
    Ok(())
}

/// Pushes the tensors of the faces of a left simplex of degree i + 1, with their signs, with a right
/// simplex of degree k that is not degenerate.
fn push_left_faces<X: FlowFaces>(
    alloc: Global,
    x: &X,
    p: Prime,
    i: u32,
    k: u32,
    left: &Simplex,
    right: &Simplex,
    into: &mut Vec<(Tensor<Cell, Cell>, Fp)>,
) -> Result<(), AllocError>
    requires degree { suc i + k ≤ X.bound x.now }
    requires left { X.is_left x.now (suc i) left.now }
    requires right { X.is_right x.now k right.now }
    requires right_plain { right.now.degens.mask ≡ 0 }
    requires elements { All (λ t. t.1.value < number p) into.old.items }
    requires tensors { EachKey (IsTensorOf (X.is_left x.now) (X.is_right x.now) (X.left_degree_of x.now) (i + k)) (numbers into.old.items) }
    ensures elements { OnOk result (All (λ t. t.1.value < number p) into.new.items) }
    ensures tensors { OnOk result (EachKey (IsTensorOf (X.is_left x.now) (X.is_right x.now) (X.left_degree_of x.now) (i + k)) (numbers into.new.items)) }
    ensures sum { OnOk result ((w : PlainTensor (Plain (X.left_space x.now)) (Plain (X.right_space x.now)) → ℕ)
        → SameMod (number p) (weigh (λ t. w (tensor_form (X.left_degree_of x.now) (X.left_form x.now) (X.right_form x.now) t)) (numbers into.new.items))
        (weigh (λ t. w (tensor_form (X.left_degree_of x.now) (X.left_form x.now) (X.right_form x.now) t)) (numbers into.old.items)
        + weigh (λ z. cond (is_tensor_cell (number p) (left_of (X.has_letters x.now) (number p) (X.left_space x.now)) (ordered (X.right_space x.now)) z) (w z) 0)
        (left_faces (number p) (left_of (X.has_letters x.now) (number p) (X.left_space x.now)) (left_in (X.has_letters x.now) (X.left_space x.now)) (ordered (X.right_space x.now)) (suc (suc i)) (suc i, X.left_form x.now left.now, k, X.right_form x.now right.now)))) }
{
    for j in 0..i + 2 {
        let sign = signed(p, j, Fp { value: 1 });
        push_left_face(alloc, x, p, i, j, k, left, right, sign, into)?;
    }
    Ok(())
}

/// Pushes the tensor of a left simplex of degree i that is not degenerate with face j of a right simplex
/// of degree k + 1, times a, where it is not degenerate.
fn push_right_face<X: FlowFaces>(
    alloc: Global,
    x: &X,
    p: Prime,
    i: u32,
    j: u32,
    k: u32,
    left: &Simplex,
    right: &Simplex,
    a: Fp,
    into: &mut Vec<(Tensor<Cell, Cell>, Fp)>,
) -> Result<(), AllocError>
    requires degree { i + suc k ≤ X.bound x.now }
    requires index { j ≤ suc k }
    requires left { X.is_left x.now i left.now }
    requires left_plain { left.now.degens.mask ≡ 0 }
    requires right { X.is_right x.now (suc k) right.now }
    requires element { a.value < number p }
    requires elements { All (λ t. t.1.value < number p) into.old.items }
    requires tensors { EachKey (IsTensorOf (X.is_left x.now) (X.is_right x.now) (X.left_degree_of x.now) (i + k)) (numbers into.old.items) }
    ensures elements { OnOk result (All (λ t. t.1.value < number p) into.new.items) }
    ensures tensors { OnOk result (EachKey (IsTensorOf (X.is_left x.now) (X.is_right x.now) (X.left_degree_of x.now) (i + k)) (numbers into.new.items)) }
    ensures sum { OnOk result ((w : PlainTensor (Plain (X.left_space x.now)) (Plain (X.right_space x.now)) → ℕ)
        → SameMod (number p) (weigh (λ t. w (tensor_form (X.left_degree_of x.now) (X.left_form x.now) (X.right_form x.now) t)) (numbers into.new.items))
        (weigh (λ t. w (tensor_form (X.left_degree_of x.now) (X.left_form x.now) (X.right_form x.now) t)) (numbers into.old.items)
        + a.value * cond (is_tensor_cell (number p) (left_of (X.has_letters x.now) (number p) (X.left_space x.now)) (ordered (X.right_space x.now)) (i, X.left_form x.now left.now, k, (set_of (X.right_space x.now)).face j (X.right_form x.now right.now)))
        (w (i, X.left_form x.now left.now, k, (set_of (X.right_space x.now)).face j (X.right_form x.now right.now))) 0)) }
{
    let face = x.right_face(alloc, j, right)?;
    push_right_term(alloc, left, face, a, into)
}

/// Pushes the tensors of a left simplex of degree i that is not degenerate with the faces of a right
/// simplex of degree k + 1, with their signs and times a.
fn push_right_faces<X: FlowFaces>(
    alloc: Global,
    x: &X,
    p: Prime,
    i: u32,
    k: u32,
    left: &Simplex,
    right: &Simplex,
    a: Fp,
    into: &mut Vec<(Tensor<Cell, Cell>, Fp)>,
) -> Result<(), AllocError>
    requires degree { i + suc k ≤ X.bound x.now }
    requires left { X.is_left x.now i left.now }
    requires left_plain { left.now.degens.mask ≡ 0 }
    requires right { X.is_right x.now (suc k) right.now }
    requires element { a.value < number p }
    requires elements { All (λ t. t.1.value < number p) into.old.items }
    requires tensors { EachKey (IsTensorOf (X.is_left x.now) (X.is_right x.now) (X.left_degree_of x.now) (i + k)) (numbers into.old.items) }
    ensures elements { OnOk result (All (λ t. t.1.value < number p) into.new.items) }
    ensures tensors { OnOk result (EachKey (IsTensorOf (X.is_left x.now) (X.is_right x.now) (X.left_degree_of x.now) (i + k)) (numbers into.new.items)) }
    ensures sum { OnOk result ((w : PlainTensor (Plain (X.left_space x.now)) (Plain (X.right_space x.now)) → ℕ)
        → SameMod (number p) (weigh (λ t. w (tensor_form (X.left_degree_of x.now) (X.left_form x.now) (X.right_form x.now) t)) (numbers into.new.items))
        (weigh (λ t. w (tensor_form (X.left_degree_of x.now) (X.left_form x.now) (X.right_form x.now) t)) (numbers into.old.items)
        + a.value * weigh (λ z. cond (is_tensor_cell (number p) (left_of (X.has_letters x.now) (number p) (X.left_space x.now)) (ordered (X.right_space x.now)) z) (w z) 0)
        (right_faces (number p) (left_of (X.has_letters x.now) (number p) (X.left_space x.now)) (left_in (X.has_letters x.now) (X.left_space x.now)) (ordered (X.right_space x.now)) (suc (suc k)) (i, X.left_form x.now left.now, suc k, X.right_form x.now right.now)))) }
{
    for j in 0..k + 2 {
        push_right_face(alloc, x, p, i, j, k, left, right, signed(p, j, a), into)?;
    }
    Ok(())
}

/// Pushes the differential of the left part of a tensor of degrees i and k with the right part.
fn push_left_part<X: FlowFaces>(
    alloc: Global,
    x: &X,
    p: Prime,
    i: u32,
    k: u32,
    left: &Simplex,
    right: &Simplex,
    into: &mut Vec<(Tensor<Cell, Cell>, Fp)>,
) -> Result<(), AllocError>
    requires degree { i + k ≤ X.bound x.now }
    requires left { X.is_left x.now i left.now }
    requires right { X.is_right x.now k right.now }
    requires right_plain { right.now.degens.mask ≡ 0 }
    requires elements { All (λ t. t.1.value < number p) into.old.items }
    requires tensors { EachKey (IsTensorOf (X.is_left x.now) (X.is_right x.now) (X.left_degree_of x.now) (i + k - 1)) (numbers into.old.items) }
    ensures elements { OnOk result (All (λ t. t.1.value < number p) into.new.items) }
    ensures tensors { OnOk result (EachKey (IsTensorOf (X.is_left x.now) (X.is_right x.now) (X.left_degree_of x.now) (i + k - 1)) (numbers into.new.items)) }
    ensures sum { OnOk result ((w : PlainTensor (Plain (X.left_space x.now)) (Plain (X.right_space x.now)) → ℕ)
        → SameMod (number p) (weigh (λ t. w (tensor_form (X.left_degree_of x.now) (X.left_form x.now) (X.right_form x.now) t)) (numbers into.new.items))
        (weigh (λ t. w (tensor_form (X.left_degree_of x.now) (X.left_form x.now) (X.right_form x.now) t)) (numbers into.old.items)
        + weigh (λ z. cond (is_tensor_cell (number p) (left_of (X.has_letters x.now) (number p) (X.left_space x.now)) (ordered (X.right_space x.now)) z) (w z) 0)
        (left_d (number p) (left_of (X.has_letters x.now) (number p) (X.left_space x.now)) (left_in (X.has_letters x.now) (X.left_space x.now)) (ordered (X.right_space x.now)) (i, X.left_form x.now left.now, k, X.right_form x.now right.now)))) }
{
    if i == 0 {
        return Ok(());
    }
    push_left_faces(alloc, x, p, i - 1, k, left, right, into)
}

/// Pushes the left part of a tensor of degrees i and k with the differential of the right part, times a.
fn push_right_part<X: FlowFaces>(
    alloc: Global,
    x: &X,
    p: Prime,
    i: u32,
    k: u32,
    left: &Simplex,
    right: &Simplex,
    a: Fp,
    into: &mut Vec<(Tensor<Cell, Cell>, Fp)>,
) -> Result<(), AllocError>
    requires degree { i + k ≤ X.bound x.now }
    requires left { X.is_left x.now i left.now }
    requires left_plain { left.now.degens.mask ≡ 0 }
    requires right { X.is_right x.now k right.now }
    requires element { a.value < number p }
    requires elements { All (λ t. t.1.value < number p) into.old.items }
    requires tensors { EachKey (IsTensorOf (X.is_left x.now) (X.is_right x.now) (X.left_degree_of x.now) (i + k - 1)) (numbers into.old.items) }
    ensures elements { OnOk result (All (λ t. t.1.value < number p) into.new.items) }
    ensures tensors { OnOk result (EachKey (IsTensorOf (X.is_left x.now) (X.is_right x.now) (X.left_degree_of x.now) (i + k - 1)) (numbers into.new.items)) }
    ensures sum { OnOk result ((w : PlainTensor (Plain (X.left_space x.now)) (Plain (X.right_space x.now)) → ℕ)
        → SameMod (number p) (weigh (λ t. w (tensor_form (X.left_degree_of x.now) (X.left_form x.now) (X.right_form x.now) t)) (numbers into.new.items))
        (weigh (λ t. w (tensor_form (X.left_degree_of x.now) (X.left_form x.now) (X.right_form x.now) t)) (numbers into.old.items)
        + a.value * weigh (λ z. cond (is_tensor_cell (number p) (left_of (X.has_letters x.now) (number p) (X.left_space x.now)) (ordered (X.right_space x.now)) z) (w z) 0)
        (right_d (number p) (left_of (X.has_letters x.now) (number p) (X.left_space x.now)) (left_in (X.has_letters x.now) (X.left_space x.now)) (ordered (X.right_space x.now)) (i, X.left_form x.now left.now, k, X.right_form x.now right.now)))) }
{
    if k == 0 {
        return Ok(());
    }
    push_right_faces(alloc, x, p, i, k - 1, left, right, a, into)
}

/// The differential of a tensor of degree at most the bound: that of its left part, with the right part,
/// and, with the sign (-1)^i where the left part has degree i, the left part with that of the right part.
/// Degenerate tensors count as 0.
pub(crate) fn tensor_boundary<X: FlowFaces>(
    alloc: Global,
    x: &X,
    p: Prime,
    t: &Tensor<Cell, Cell>,
) -> Result<Chain<Tensor<Cell, Cell>>, AllocError>
    requires { (n : ℕ) × IsTensorOf (X.is_left x.now) (X.is_right x.now) (X.left_degree_of x.now) n t.now × (n ≤ X.bound x.now) }
    ensures prime { IfOk result (λ r. r.prime ≡ p) }
    ensures terms { IfOk result (λ r. r.terms ≡ normal tensor_cmp (number p) (on_tensors (X.left_degree_of x.now) (X.left_form x.now) (X.right_form x.now)
        (tensor_for (X.left_simplex x.now) (X.right_simplex x.now))
        (tensor_d (number p) (left_of (X.has_letters x.now) (number p) (X.left_space x.now)) (left_in (X.has_letters x.now) (X.left_space x.now)) (ordered (X.right_space x.now))) t.now)) }
{
    let i = x.left_degree(&t.left);
    let k = dim(&t.right);
    let left = bare_simplex(alloc, &t.left)?;
    let right = bare_simplex(alloc, &t.right)?;
    let sign = signed(p, i, Fp { value: 1 });
    let mut terms = Vec::new(alloc);
    push_left_part(alloc, x, p, i, k, &left, &right, &mut terms)?;
    push_right_part(alloc, x, p, i, k, &left, &right, sign, &mut terms)?;
    Chain::from_terms(alloc, p, terms)
}
