// Eilenberg-Mac Lane: the signed sum over all shuffles.
ghost use Rattle.std.specs.Prelude.{◌≡◌, ℕ, suc, ◌+◌, ◌*◌, ◌<◌, ◌≤◌, ◌∷◌, [], ◌++◌, map, All, IfOk, OnOk};
ghost use Rattle.fp_field.specs.Field.{number, SameMod, sign};
ghost use Rattle.fp_field.specs.Chains.{weigh, EachKey};
ghost use Rattle.fp_field.specs.Normal.{normal};
ghost use Rattle.simp_ops.specs.Bits.{bit, inserted};
ghost use Rattle.simp_ops.specs.PathWords.{shuffles};
ghost use Rattle.spaces.specs.Spaces.{Plain};
ghost use Rattle.spaces.specs.Orders.{ordered};
ghost use Rattle.spaces.specs.EilenbergZilber.{Pair, eml as eml_of};
ghost use Rattle.chain_core.specs.Formal.{numbers};
ghost use Rattle.cells.specs.Dim.{dim_of};
ghost use Rattle.cells.specs.Order.{cell_cmp};
ghost use Rattle.cells.specs.declared.cells.Cell.TheVariants.{Pair as PairCell};
ghost use Rattle.ez_flow.specs.Parts.{left_of, IsPairOf, form_weight};
ghost use Rattle.ez_flow.specs.CodeMaps.{cell_for, left_cell_degree};
ghost use Rattle.ez_maps.specs.Tensors.{IsTensorOf, tensor_form, on_tensors};
ghost use Rattle.ez_maps.specs.Words.{AreApart, shuffled_from, left_first, right_first};

use cells::{Cell, Simplex, copy_cell, dim};
use chain_core::Chain;
use ez_flow::{FlowFaces, pair_cell, signed};
use fp_field::{Fp, Prime};
use simp_ops::Degens;
use std::alloc::{AllocError, Global};
use tensor_red::Tensor;

/// The shuffles that begin with given steps: the first `place` steps are read into the masks of the two
/// parts and the sign, and `lefts` steps of the left part alone and `rights` of the right part alone are
/// to come.
#[derive(Clone, Copy)]
struct Shuffles {
    place: u32,
    lefts: u32,
    rights: u32,
    left: Degens,
    right: Degens,
    sign: Fp,
}

/// Those whose next step is one of the left part alone.
fn after_left(word: Shuffles) -> Shuffles
    requires low { word.place < 32 }
    requires some { 0 < word.lefts }
    requires apart { AreApart word.place word.left.mask word.right.mask }
    ensures place { result.place ≡ suc word.place }
    ensures lefts { suc result.lefts ≡ word.lefts }
    ensures rights { result.rights ≡ word.rights }
    ensures left { result.left ≡ word.left }
    ensures right { (k : ℕ) → bit result.right.mask k ≡ inserted word.place (bit word.right.mask) k }
    ensures sign { result.sign ≡ word.sign }
    ensures apart { AreApart result.place result.left.mask result.right.mask }
{
    Shuffles {
        place: word.place + 1,
        lefts: word.lefts - 1,
        rights: word.rights,
        left: word.left,
        right: word.right.with(word.place),
        sign: word.sign,
    }
}

/// Those whose next step is one of the right part alone, which stands before each step of the left part
/// alone that is to come.
fn after_right(p: Prime, word: Shuffles) -> Shuffles
    requires low { word.place < 32 }
    requires some { 0 < word.rights }
    requires apart { AreApart word.place word.left.mask word.right.mask }
    requires element { word.sign.value < number p }
    ensures place { result.place ≡ suc word.place }
    ensures lefts { result.lefts ≡ word.lefts }
    ensures rights { suc result.rights ≡ word.rights }
    ensures left { (k : ℕ) → bit result.left.mask k ≡ inserted word.place (bit word.left.mask) k }
    ensures right { result.right ≡ word.right }
    ensures element { result.sign.value < number p }
    ensures sign { SameMod (number p) result.sign.value (sign (number p) word.lefts * word.sign.value) }
    ensures apart { AreApart result.place result.left.mask result.right.mask }
{
    Shuffles {
        place: word.place + 1,
        lefts: word.lefts,
        rights: word.rights - 1,
        left: word.left.with(word.place),
        right: word.right,
        sign: signed(p, word.lefts, word.sign),
    }
}

/// Pushes the pair of the two cells with the masks of a shuffle that is read to its end.
fn push_shuffle(
    alloc: Global,
    t: &Tensor<Cell, Cell>,
    word: Shuffles,
    into: &mut Vec<(Cell, Fp)>,
) -> Result<(), AllocError>
    ensures { OnOk result (into.new.items ≡ into.old.items ++ (PairCell (record { degens = word.left; cell = t.now.left }) (record { degens = word.right; cell = t.now.right }), word.sign) ∷ []) }
{
    let left = Simplex {
        degens: word.left,
        cell: copy_cell(alloc, &t.left)?,
    };
    let right = Simplex {
        degens: word.right,
        cell: copy_cell(alloc, &t.right)?,
    };
    into.push((pair_cell(alloc, left, right)?, word.sign))?;
    Ok(())
}

/// Pushes the pairs of all shuffles that begin with given steps, each with its sign.
#[cycle(shuffles)]
fn push_shuffles<X: FlowFaces>(
    alloc: Global,
    x: &X,
    p: Prime,
    t: &Tensor<Cell, Cell>,
    word: Shuffles,
    into: &mut Vec<(Cell, Fp)>,
) -> Result<(), AllocError>
    requires degree { word.place + word.lefts + word.rights ≤ X.bound x.now }
    requires left { X.is_left x.now (word.place + word.lefts) (record { degens = word.left; cell = t.now.left }) }
    requires right { X.is_right x.now (word.place + word.rights) (record { degens = word.right; cell = t.now.right }) }
    requires apart { AreApart word.place word.left.mask word.right.mask }
    requires element { word.sign.value < number p }
    requires elements { All (λ s. s.1.value < number p) into.old.items }
    requires pairs { EachKey (IsPairOf (X.is_left x.now) (X.is_right x.now) (word.place + word.lefts + word.rights)) (numbers into.old.items) }
    ensures elements { OnOk result (All (λ s. s.1.value < number p) into.new.items) }
    ensures pairs { OnOk result (EachKey (IsPairOf (X.is_left x.now) (X.is_right x.now) (word.place + word.lefts + word.rights)) (numbers into.new.items)) }
    ensures sum { OnOk result ((w : Pair (Plain (X.left_space x.now)) (Plain (X.right_space x.now)) → ℕ)
        → SameMod (number p) (weigh (form_weight (X.left_form x.now) (X.right_form x.now) (word.place + word.lefts + word.rights) w) (numbers into.new.items))
        (weigh (form_weight (X.left_form x.now) (X.right_form x.now) (word.place + word.lefts + word.rights) w) (numbers into.old.items)
        + word.sign.value * weigh w (map (shuffled_from (number p) (left_of (X.has_letters x.now) (number p) (X.left_space x.now)) (ordered (X.right_space x.now))
        (word.place + word.lefts + word.rights) word.place (X.left_form x.now (record { degens = word.left; cell = t.now.left })) (X.right_form x.now (record { degens = word.right; cell = t.now.right })))
        (shuffles (word.lefts + word.rights) word.lefts)))) }
{
    if word.lefts + word.rights == 0 {
        return push_shuffle(alloc, t, word, into);
    }
    push_after_left(alloc, x, p, t, word, into)?;
    push_after_right(alloc, x, p, t, word, into)
}

/// Pushes those whose next step is one of the left part alone.
#[cycle(shuffles)]
fn push_after_left<X: FlowFaces>(
    alloc: Global,
    x: &X,
    p: Prime,
    t: &Tensor<Cell, Cell>,
    word: Shuffles,
    into: &mut Vec<(Cell, Fp)>,
) -> Result<(), AllocError>
    requires degree { word.place + word.lefts + word.rights ≤ X.bound x.now }
    requires left { X.is_left x.now (word.place + word.lefts) (record { degens = word.left; cell = t.now.left }) }
    requires right { X.is_right x.now (word.place + word.rights) (record { degens = word.right; cell = t.now.right }) }
    requires apart { AreApart word.place word.left.mask word.right.mask }
    requires element { word.sign.value < number p }
    requires elements { All (λ s. s.1.value < number p) into.old.items }
    requires pairs { EachKey (IsPairOf (X.is_left x.now) (X.is_right x.now) (word.place + word.lefts + word.rights)) (numbers into.old.items) }
    ensures elements { OnOk result (All (λ s. s.1.value < number p) into.new.items) }
    ensures pairs { OnOk result (EachKey (IsPairOf (X.is_left x.now) (X.is_right x.now) (word.place + word.lefts + word.rights)) (numbers into.new.items)) }
    ensures sum { OnOk result ((w : Pair (Plain (X.left_space x.now)) (Plain (X.right_space x.now)) → ℕ)
        → SameMod (number p) (weigh (form_weight (X.left_form x.now) (X.right_form x.now) (word.place + word.lefts + word.rights) w) (numbers into.new.items))
        (weigh (form_weight (X.left_form x.now) (X.right_form x.now) (word.place + word.lefts + word.rights) w) (numbers into.old.items)
        + word.sign.value * weigh w (map (shuffled_from (number p) (left_of (X.has_letters x.now) (number p) (X.left_space x.now)) (ordered (X.right_space x.now))
        (word.place + word.lefts + word.rights) word.place (X.left_form x.now (record { degens = word.left; cell = t.now.left })) (X.right_form x.now (record { degens = word.right; cell = t.now.right })))
        (left_first word.lefts word.rights)))) }
{
    if word.lefts == 0 {
        return Ok(());
    }
    push_shuffles(alloc, x, p, t, after_left(word), into)
}

/// Pushes those whose next step is one of the right part alone.
#[cycle(shuffles)]
fn push_after_right<X: FlowFaces>(
    alloc: Global,
    x: &X,
    p: Prime,
    t: &Tensor<Cell, Cell>,
    word: Shuffles,
    into: &mut Vec<(Cell, Fp)>,
) -> Result<(), AllocError>
    requires degree { word.place + word.lefts + word.rights ≤ X.bound x.now }
    requires left { X.is_left x.now (word.place + word.lefts) (record { degens = word.left; cell = t.now.left }) }
    requires right { X.is_right x.now (word.place + word.rights) (record { degens = word.right; cell = t.now.right }) }
    requires apart { AreApart word.place word.left.mask word.right.mask }
    requires element { word.sign.value < number p }
    requires elements { All (λ s. s.1.value < number p) into.old.items }
    requires pairs { EachKey (IsPairOf (X.is_left x.now) (X.is_right x.now) (word.place + word.lefts + word.rights)) (numbers into.old.items) }
    ensures elements { OnOk result (All (λ s. s.1.value < number p) into.new.items) }
    ensures pairs { OnOk result (EachKey (IsPairOf (X.is_left x.now) (X.is_right x.now) (word.place + word.lefts + word.rights)) (numbers into.new.items)) }
    ensures sum { OnOk result ((w : Pair (Plain (X.left_space x.now)) (Plain (X.right_space x.now)) → ℕ)
        → SameMod (number p) (weigh (form_weight (X.left_form x.now) (X.right_form x.now) (word.place + word.lefts + word.rights) w) (numbers into.new.items))
        (weigh (form_weight (X.left_form x.now) (X.right_form x.now) (word.place + word.lefts + word.rights) w) (numbers into.old.items)
        + word.sign.value * weigh w (map (shuffled_from (number p) (left_of (X.has_letters x.now) (number p) (X.left_space x.now)) (ordered (X.right_space x.now))
        (word.place + word.lefts + word.rights) word.place (X.left_form x.now (record { degens = word.left; cell = t.now.left })) (X.right_form x.now (record { degens = word.right; cell = t.now.right })))
        (right_first word.lefts word.rights)))) }
{
    if word.rights == 0 {
        return Ok(());
    }
    push_shuffles(alloc, x, p, t, after_right(p, word), into)
}

/// Eilenberg-Mac Lane on the tensor of a left and a right cell whose degrees add up to n, with n at most
/// the bound: the sum over all shuffles of the degrees of the two cells, each a word of steps of the left
/// part alone and of the right part alone, of the pair of the left cell with a degeneracy at each step of
/// the right part and the right cell with one at each step of the left part, with the sign of the number
/// of pairs of a step of the right part and a later one of the left part (Eilenberg and Mac Lane 1953;
/// May, Simplicial Objects, chapter VI, 29). The terms are the pairs of the map on the forms, and no left
/// cell of theirs has a larger dimension than that of the argument.
pub fn eml<X: FlowFaces>(
    alloc: Global,
    x: &X,
    p: Prime,
    t: &Tensor<Cell, Cell>,
) -> Result<Chain<Cell>, AllocError>
    requires { (n : ℕ) × IsTensorOf (X.is_left x.now) (X.is_right x.now) (X.left_degree_of x.now) n t.now × (n ≤ X.bound x.now) }
    ensures prime { IfOk result (λ r. r.prime ≡ p) }
    ensures pairs { IfOk result (λ r. EachKey (IsPairOf (X.is_left x.now) (X.is_right x.now) (X.left_degree_of x.now t.now.left + dim_of t.now.right)) r.terms) }
    ensures eml { IfOk result (λ r. (w : Pair (Plain (X.left_space x.now)) (Plain (X.right_space x.now)) → ℕ)
        → SameMod (number p) (weigh (form_weight (X.left_form x.now) (X.right_form x.now) (X.left_degree_of x.now t.now.left + dim_of t.now.right) w) r.terms)
        (weigh w (eml_of (number p) (left_of (X.has_letters x.now) (number p) (X.left_space x.now)) (ordered (X.right_space x.now))
        (tensor_form (X.left_degree_of x.now) (X.left_form x.now) (X.right_form x.now) t.now)))) }
    ensures terms { IfOk result (λ r. r.terms ≡ normal cell_cmp (number p) (on_tensors (X.left_degree_of x.now) (X.left_form x.now) (X.right_form x.now)
        (cell_for (X.left_simplex x.now) (X.right_simplex x.now))
        (eml_of (number p) (left_of (X.has_letters x.now) (number p) (X.left_space x.now)) (ordered (X.right_space x.now))) t.now)) }
    ensures left_cells { IfOk result (λ r. EachKey (λ s. left_cell_degree (X.left_degree_of x.now) s ≤ X.left_degree_of x.now t.now.left) r.terms) }
{
    let word = Shuffles {
        place: 0,
        lefts: x.left_degree(&t.left),
        rights: dim(&t.right),
        left: Degens { mask: 0 },
        right: Degens { mask: 0 },
        sign: Fp { value: 1 },
    };
    let mut terms = Vec::new(alloc);
    push_shuffles(alloc, x, p, t, word, &mut terms)?;
    Chain::from_terms(alloc, p, terms)
}
