// The flow: rounds on the sources that are left over.
ghost use Rattle.std.specs.Prelude.{◌≡◌, ℕ, suc, ◌+◌, ◌*◌, ◌<◌, ◌≤◌, cond, All, IfOk, OnOk};
ghost use Rattle.fp_field.specs.Field.{number, SameMod};
ghost use Rattle.fp_field.specs.Chains.{weigh, EachKey};
ghost use Rattle.spaces.specs.Spaces.{Plain};
ghost use Rattle.spaces.specs.Orders.{ordered};
ghost use Rattle.spaces.specs.EilenbergZilber.{Pair, moved as moved_by, left_over, is_source as source_test, flow as flow_of};
ghost use Rattle.fp_field.specs.Normal.{normal, IsNormal};
ghost use Rattle.chain_core.specs.Formal.{numbers};
ghost use Rattle.cells.specs.Order.{cell_cmp};
ghost use Rattle.ez_flow.specs.Parts.{left_of, IsPairOf, IsSourceOf, form_weight};
ghost use Rattle.ez_flow.specs.CodeMaps.{on_cells, cell_for, left_cell_degree};

use crate::faces::FlowFaces;
use crate::rounds::{add_round, parts};
use crate::sources::is_source;
use cells::{Cell, copy_cell};
use chain_core::Chain;
use fp_field::{Fp, Prime};
use std::alloc::{AllocError, Global};

/// The sources that are left over after one round on these sources of degree n; what they move is
/// pushed.
fn next_round<X: FlowFaces>(
    alloc: Global,
    x: &X,
    p: Prime,
    n: u32,
    work: Vec<(Cell, Fp)>,
    moved: &mut Vec<(Cell, Fp)>,
) -> Result<Vec<(Cell, Fp)>, AllocError>
    requires degree { suc n ≤ X.bound x.now }
    requires work_elements { All (λ t. t.1.value < number p) work.items }
    requires work_pairs { EachKey (IsSourceOf (X.is_left x.now) (X.is_right x.now) n) (numbers work.items) }
    requires moved_elements { All (λ t. t.1.value < number p) moved.old.items }
    requires moved_pairs { EachKey (IsPairOf (X.is_left x.now) (X.is_right x.now) (suc n)) (numbers moved.old.items) }
    ensures moved_elements { OnOk result (All (λ t. t.1.value < number p) moved.new.items) }
    ensures moved_pairs { OnOk result (EachKey (IsPairOf (X.is_left x.now) (X.is_right x.now) (suc n)) (numbers moved.new.items)) }
    ensures next_elements { IfOk result (λ next. All (λ t. t.1.value < number p) next.items) }
    ensures next_pairs { IfOk result (λ next. EachKey (IsSourceOf (X.is_left x.now) (X.is_right x.now) n) (numbers next.items)) }
    ensures moved { OnOk result ((w : Pair (Plain (X.left_space x.now)) (Plain (X.right_space x.now)) → ℕ)
        → SameMod (number p) (weigh (form_weight (X.left_form x.now) (X.right_form x.now) (suc n) w) (numbers moved.new.items))
        (weigh (form_weight (X.left_form x.now) (X.right_form x.now) (suc n) w) (numbers moved.old.items)
        + weigh (form_weight (X.left_form x.now) (X.right_form x.now) n
        (λ t. weigh w (moved_by (number p) (left_of (X.has_letters x.now) (number p) (X.left_space x.now)) (ordered (X.right_space x.now)) t))) (numbers work.items))) }
    ensures next { IfOk result (λ next. (w : Pair (Plain (X.left_space x.now)) (Plain (X.right_space x.now)) → ℕ)
        → SameMod (number p) (weigh (form_weight (X.left_form x.now) (X.right_form x.now) n w) (numbers next.items))
        (weigh (form_weight (X.left_form x.now) (X.right_form x.now) n
        (λ t. weigh (λ u. cond (source_test (number p) (left_of (X.has_letters x.now) (number p) (X.left_space x.now)) (ordered (X.right_space x.now)) u) (w u) 0)
        (left_over (number p) (left_of (X.has_letters x.now) (number p) (X.left_space x.now)) (ordered (X.right_space x.now)) t))) (numbers work.items))) }
{
    let mut work = work;
    let mut next = Vec::new(alloc);
    while let Some((s, k)) = work.pop() {
        add_round(alloc, x, p, n, s, k, moved, &mut next)?;
    }
    Ok(Chain::from_terms(alloc, p, next)?.into_terms())
}

/// How many rounds are enough in degree n.
fn rounds(n: u32) -> u32
    requires { n ≤ 31 }
    ensures { result ≡ (2 * n + 1) * ((n + 1) * (n + 1) + 1) }
{
    (2 * n + 1) * ((n + 1) * (n + 1) + 1)
}

/// The flow on a pair of degree n.
fn flow_in_degree<X: FlowFaces>(
    alloc: Global,
    x: &X,
    p: Prime,
    n: u32,
    c: &Cell,
) -> Result<Chain<Cell>, AllocError>
    requires degree { suc n ≤ X.bound x.now }
    requires pair { IsPairOf (X.is_left x.now) (X.is_right x.now) n c.now }
    ensures prime { IfOk result (λ r. r.prime ≡ p) }
    ensures pairs { IfOk result (λ r. EachKey (IsPairOf (X.is_left x.now) (X.is_right x.now) (suc n)) r.terms) }
    ensures normal { IfOk result (λ r. IsNormal cell_cmp (number p) r.terms) }
    ensures flow { IfOk result (λ r. (w : Pair (Plain (X.left_space x.now)) (Plain (X.right_space x.now)) → ℕ)
        → SameMod (number p) (weigh (form_weight (X.left_form x.now) (X.right_form x.now) (suc n) w) r.terms)
        (form_weight (X.left_form x.now) (X.right_form x.now) n
        (λ s. weigh w (flow_of (number p) (left_of (X.has_letters x.now) (number p) (X.left_space x.now)) (ordered (X.right_space x.now)) s)) c.now)) }
{
    let (a, b) = parts(c);
    if !is_source(n, a.degens, b.degens) {
        return Ok(Chain::new(alloc, p));
    }
    let mut moved = Vec::new(alloc);
    let mut work = Vec::new(alloc);
    work.push((copy_cell(alloc, c)?, Fp { value: 1 }))?;
    for _round in 0..rounds(n) {
        if work.is_empty() {
            let early = Chain::from_terms(alloc, p, moved)?;
            return Ok(early);
        }
        work = next_round(alloc, x, p, n, work, &mut moved)?;
    }
    let flow = Chain::from_terms(alloc, p, moved)?;
    Ok(flow)
}

/// The flow of the vector field on a pair of a left and a right simplex of degree n, with n below the
/// bound: the one linear map that is 0 off the sources, with k(s) = u t + k(s - u d t) on a source s with
/// the target t (Romero and Sergeraert, Discrete Vector Fields). The terms are the cells of the flow on the
/// forms, which are pairs of degree n + 1, and no left cell of theirs has a larger dimension than that of
/// the argument.
pub fn flow<X: FlowFaces>(
    alloc: Global,
    x: &X,
    p: Prime,
    c: &Cell,
) -> Result<Chain<Cell>, AllocError>
    requires { (n : ℕ) × IsPairOf (X.is_left x.now) (X.is_right x.now) n c.now × (suc n ≤ X.bound x.now) }
    ensures prime { IfOk result (λ r. r.prime ≡ p) }
    ensures pairs { IfOk result (λ r. (n : ℕ) → IsPairOf (X.is_left x.now) (X.is_right x.now) n c.now → EachKey (IsPairOf (X.is_left x.now) (X.is_right x.now) (suc n)) r.terms) }
    ensures flow { IfOk result (λ r. (n : ℕ) → IsPairOf (X.is_left x.now) (X.is_right x.now) n c.now
        → (w : Pair (Plain (X.left_space x.now)) (Plain (X.right_space x.now)) → ℕ)
        → SameMod (number p) (weigh (form_weight (X.left_form x.now) (X.right_form x.now) (suc n) w) r.terms)
        (form_weight (X.left_form x.now) (X.right_form x.now) n
        (λ s. weigh w (flow_of (number p) (left_of (X.has_letters x.now) (number p) (X.left_space x.now)) (ordered (X.right_space x.now)) s)) c.now)) }
    ensures terms { IfOk result (λ r. r.terms ≡ normal cell_cmp (number p) (on_cells (X.left_degree_of x.now) (X.left_form x.now) (X.right_form x.now)
        (cell_for (X.left_simplex x.now) (X.right_simplex x.now))
        (flow_of (number p) (left_of (X.has_letters x.now) (number p) (X.left_space x.now)) (ordered (X.right_space x.now))) c.now)) }
    ensures left_cells { IfOk result (λ r. EachKey (λ t. left_cell_degree (X.left_degree_of x.now) t ≤ left_cell_degree (X.left_degree_of x.now) c.now) r.terms) }
{
    let (a, _) = parts(c);
    let n = a.degens.mask.count_ones() + x.left_degree(&a.cell);
    let flow = flow_in_degree(alloc, x, p, n, c)?;
    Ok(flow)
}
