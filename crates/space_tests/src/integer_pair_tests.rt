// Pairs over the 2-sphere and K(Z,1).
ghost use Rattle.std.specs.Prelude.{◌≡◌, ◌<◌, ◌^◌, IfOk, [], ◌∷◌, pos};
ghost use Rattle.cells.specs.declared.cells.Cell.TheVariants.{Top, Ints};
ghost use Rattle.term_lang.specs.declared.terms.Term.TheVariants.{Sphere, KZ1};
ghost use Rattle.term_lang.specs.SpaceOf.{space_of};
ghost use Rattle.ez_flow.specs.Parts.{IsPairOf};
ghost use Rattle.space_pairs.specs.Parts.{IsReached};

use crate::texts::push_line;
use cells::{Cell, IntList, Simplex};
use chain_core::Chain;
use ez_flow::{flow, pair_cell};
use ez_maps::{Tensor, aw};
use fp_field::Prime;
use seqs::new_seq;
use simp_ops::Degens;
use space_faces::faces_of;
use space_pairs::SpacePair;
use std::alloc::{AllocError, Global};
use term_lang::Term;

/// The 2-sphere on the left and K(Z,1) on the right, with a reach of at most 5.
fn sphere_and_integers<'a>(sphere: &'a Term, integers: &'a Term) -> SpacePair<'a>
    requires sphere { sphere.now ≡ Sphere 2 }
    requires integers { integers.now ≡ KZ1 }
    ensures left { result.left.term.now ≡ Sphere 2 }
    ensures right { result.right.term.now ≡ KZ1 }
    ensures most { result.most ≡ 5 }
{
    SpacePair {
        left: faces_of(sphere),
        right: faces_of(integers),
        most: 5,
    }
}

/// The cell of the 2-sphere behind a mask.
fn over_top(mask: u64) -> Simplex
    requires { mask < 2 ^ 32 }
    ensures mask { result.degens.mask ≡ mask }
    ensures cell { result.cell ≡ Top 2 }
{
    Simplex {
        degens: Degens { mask },
        cell: Cell::Top(2),
    }
}

/// The cell |2|3| of K(Z,1) behind a mask.
fn over_two_and_three(alloc: Global, mask: u64) -> Result<Simplex, AllocError>
    requires { mask < 2 ^ 32 }
    ensures mask { IfOk result (λ x. x.degens.mask ≡ mask) }
    ensures cell { IfOk result (λ x. x.cell ≡ Ints (pos 2 ∷ pos 3 ∷ [])) }
{
    let mut list: IntList = new_seq(alloc);
    list.push(2)?;
    list.push(3)?;
    Ok(Simplex {
        degens: Degens { mask },
        cell: Cell::Ints(list),
    })
}

/// The pair of the cell of the 2-sphere and |2|3|.
fn whole_cell(alloc: Global) -> Result<Cell, AllocError>
    ensures { IfOk result (IsPairOf (IsReached (space_of (Sphere 2)) 5) (IsReached (space_of KZ1) 5) 2) }
{
    let right = over_two_and_three(alloc, 0)?;
    pair_cell(alloc, over_top(0), right)
}

fn aw_of_whole_cell(
    alloc: Global,
    sphere: &Term,
    integers: &Term,
) -> Result<Chain<Tensor<Cell, Cell>>, AllocError>
    requires sphere { sphere.now ≡ Sphere 2 }
    requires integers { integers.now ≡ KZ1 }
{
    let cell = whole_cell(alloc)?;
    let whole = sphere_and_integers(sphere, integers);
    aw(alloc, &whole, Prime::Five, &cell)
}

fn flow_of_whole_cell(
    alloc: Global,
    sphere: &Term,
    integers: &Term,
) -> Result<Chain<Cell>, AllocError>
    requires sphere { sphere.now ≡ Sphere 2 }
    requires integers { integers.now ≡ KZ1 }
{
    let cell = whole_cell(alloc)?;
    let whole = sphere_and_integers(sphere, integers);
    flow(alloc, &whole, Prime::Five, &cell)
}

/// Alexander-Whitney and the flow on that pair.
pub(crate) fn push_integer_pair(
    out: &mut String,
    alloc: Global,
    sphere: &Term,
    integers: &Term,
) -> Result<(), AllocError>
    requires sphere { sphere.now ≡ Sphere 2 }
    requires integers { integers.now ≡ KZ1 }
{
    push_line(
        out,
        "AW <S2,|2|3|>",
        &aw_of_whole_cell(alloc, sphere, integers)?,
    )?;
    push_line(
        out,
        "flow <S2,|2|3|>",
        &flow_of_whole_cell(alloc, sphere, integers)?,
    )
}
