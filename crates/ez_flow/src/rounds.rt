// One round of the flow on one source.
ghost use Rattle.std.specs.Prelude.{◌≡◌, ℕ, suc, ◌+◌, ◌*◌, ◌<◌, ◌≤◌, ◌^◌, true, cond, All, OnOk};
ghost use Rattle.fp_field.specs.Field.{number, SameMod};
ghost use Rattle.fp_field.specs.Chains.{weigh, EachKey};
ghost use Rattle.simp_ops.specs.PathWords.{source, event};
ghost use Rattle.path_words.specs.MaskPaths.{mask_path};
ghost use Rattle.spaces.specs.Spaces.{Plain};
ghost use Rattle.spaces.specs.Orders.{ordered};
ghost use Rattle.spaces.specs.EilenbergZilber.{Pair, moved as moved_by, left_over, is_source};
ghost use Rattle.chain_core.specs.Formal.{numbers};
ghost use Rattle.cells.specs.declared.cells.Cell.TheVariants.{Pair as PairCell};
ghost use Rattle.ez_flow.specs.Parts.{left_of, IsPairWith, IsPairOf, IsSourceOf, form_weight};
ghost use Rattle.ez_flow.specs.Sources.{are_source};

use crate::faces::FlowFaces;
use crate::sources::{add_faces, pair_cell, raised, signed};
use cells::{Cell, Simplex};
use fp_field::{Fp, Prime, neg};
use path_words::{PathEvent, PathWord, event_of};
use simp_ops::Degens;
use std::alloc::{AllocError, Global};

/// The event place of a source of degree n.
fn source_place(n: u32, left: Degens, right: Degens) -> u32
    requires short { n ≤ 31 }
    requires left { left.mask < 2 ^ n }
    requires right { right.mask < 2 ^ n }
    requires source { are_source n left.mask right.mask ≡ true }
    ensures event { event (mask_path n left.mask right.mask) ≡ source result }
    ensures below { result < n }
{
    let word = PathWord {
        len: n,
        left,
        right,
    };
    match event_of(&word) {
        PathEvent::Source(j) => j,
        _ => unreachable!(),
    }
}

/// The two simplices of a pair.
pub fn parts(c: &Cell) -> (&Simplex, &Simplex)
    requires { IsPairWith (λ a b. Unit {0}) c.now }
    ensures { c.now ≡ PairCell result.0.now result.1.now }
{
    match c {
        Cell::Pair(a, b) => (a.get(), b.get()),
        _ => unreachable!(),
    }
}

/// Pushes what a source of degree n moves, and the sources in what is left over of it, each k times.
pub(crate) fn add_round<X: FlowFaces>(
    alloc: Global,
    x: &X,
    p: Prime,
    n: u32,
    s: Cell,
    k: Fp,
    moved: &mut Vec<(Cell, Fp)>,
    next: &mut Vec<(Cell, Fp)>,
) -> Result<(), AllocError>
    requires degree { suc n ≤ X.bound x.now }
    requires source { IsSourceOf (X.is_left x.now) (X.is_right x.now) n s }
    requires element { k.value < number p }
    requires moved_elements { All (λ t. t.1.value < number p) moved.old.items }
    requires moved_pairs { EachKey (IsPairOf (X.is_left x.now) (X.is_right x.now) (suc n)) (numbers moved.old.items) }
    requires next_elements { All (λ t. t.1.value < number p) next.old.items }
    requires next_pairs { EachKey (IsSourceOf (X.is_left x.now) (X.is_right x.now) n) (numbers next.old.items) }
    ensures moved_elements { OnOk result (All (λ t. t.1.value < number p) moved.new.items) }
    ensures moved_pairs { OnOk result (EachKey (IsPairOf (X.is_left x.now) (X.is_right x.now) (suc n)) (numbers moved.new.items)) }
    ensures next_elements { OnOk result (All (λ t. t.1.value < number p) next.new.items) }
    ensures next_pairs { OnOk result (EachKey (IsSourceOf (X.is_left x.now) (X.is_right x.now) n) (numbers next.new.items)) }
    ensures moved { OnOk result ((w : Pair (Plain (X.left_space x.now)) (Plain (X.right_space x.now)) → ℕ)
        → SameMod (number p) (weigh (form_weight (X.left_form x.now) (X.right_form x.now) (suc n) w) (numbers moved.new.items))
        (weigh (form_weight (X.left_form x.now) (X.right_form x.now) (suc n) w) (numbers moved.old.items)
        + k.value * form_weight (X.left_form x.now) (X.right_form x.now) n
        (λ t. weigh w (moved_by (number p) (left_of (X.has_letters x.now) (number p) (X.left_space x.now)) (ordered (X.right_space x.now)) t)) s)) }
    ensures next { OnOk result ((w : Pair (Plain (X.left_space x.now)) (Plain (X.right_space x.now)) → ℕ)
        → SameMod (number p) (weigh (form_weight (X.left_form x.now) (X.right_form x.now) n w) (numbers next.new.items))
        (weigh (form_weight (X.left_form x.now) (X.right_form x.now) n w) (numbers next.old.items)
        + k.value * form_weight (X.left_form x.now) (X.right_form x.now) n
        (λ t. weigh (λ u. cond (is_source (number p) (left_of (X.has_letters x.now) (number p) (X.left_space x.now)) (ordered (X.right_space x.now)) u) (w u) 0)
        (left_over (number p) (left_of (X.has_letters x.now) (number p) (X.left_space x.now)) (ordered (X.right_space x.now)) t)) s)) }
{
    let (a, b) = parts(&s);
    let j = source_place(n, a.degens, b.degens);
    let left = raised(alloc, j, a)?;
    let right = raised(alloc, j + 1, b)?;
    let unit = signed(p, j + 1, k);
    next.push((s, k))?;
    add_faces(alloc, x, p, n, &left, &right, neg(p, unit), next)?;
    moved.push((pair_cell(alloc, left, right)?, unit))?;
    Ok(())
}
