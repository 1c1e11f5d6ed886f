// The reduction on the torus, map by map.
ghost use Rattle.std.specs.Prelude.{◌≡◌};
ghost use Rattle.term_lang.specs.declared.terms.Term.TheVariants.{Sphere};

use crate::texts::push_line;
use crate::torus_tests::{square, tops, torus};
use cells::Cell;
use chain_core::Chain;
use ez_maps::{Pairs, Tensor, pairs_meet};
use fp_field::Prime;
use reduct_laws::Reduction;
use space_pairs::SpacePair;
use std::alloc::{AllocError, Global};
use term_lang::Term;

/// The reduction on the torus, over F_3.
fn torus_pairs(circle: &Term) -> Pairs<SpacePair<'_>>
    requires circle { circle.now ≡ Sphere 1 }
    ensures left { result.faces.left.term.now ≡ Sphere 1 }
    ensures right { result.faces.right.term.now ≡ Sphere 1 }
    ensures most { result.faces.most ≡ 0 }
{
    Pairs {
        faces: torus(circle),
        p: Prime::Three,
    }
}

fn big_d_of_square(alloc: Global, circle: &Term) -> Result<Chain<Cell>, AllocError>
    requires circle { circle.now ≡ Sphere 1 }
{
    let whole = torus_pairs(circle);
    whole.big_d(alloc, &mut (), &square(alloc)?)
}

fn f_of_square(alloc: Global, circle: &Term) -> Result<Chain<Tensor<Cell, Cell>>, AllocError>
    requires circle { circle.now ≡ Sphere 1 }
{
    let whole = torus_pairs(circle);
    whole.f(alloc, &mut (), &square(alloc)?)
}

fn h_of_square(alloc: Global, circle: &Term) -> Result<Chain<Cell>, AllocError>
    requires circle { circle.now ≡ Sphere 1 }
{
    let whole = torus_pairs(circle);
    whole.h(alloc, &mut (), &square(alloc)?)
}

fn g_of_tops(alloc: Global, circle: &Term) -> Result<Chain<Cell>, AllocError>
    requires circle { circle.now ≡ Sphere 1 }
{
    let whole = torus_pairs(circle);
    whole.g(alloc, &mut (), &tops())
}

fn small_d_of_tops(alloc: Global, circle: &Term) -> Result<Chain<Tensor<Cell, Cell>>, AllocError>
    requires circle { circle.now ≡ Sphere 1 }
{
    let whole = torus_pairs(circle);
    whole.small_d(alloc, &mut (), &tops())
}

/// The maps of the reduction.
pub(crate) fn push_torus_maps(
    out: &mut String,
    alloc: Global,
    circle: &Term,
) -> Result<(), AllocError>
    requires circle { circle.now ≡ Sphere 1 }
{
    push_line(out, "D <S1,S1>", &big_d_of_square(alloc, circle)?)?;
    push_line(out, "d S1*S1", &small_d_of_tops(alloc, circle)?)?;
    push_line(out, "F <S1,S1>", &f_of_square(alloc, circle)?)?;
    push_line(out, "G S1*S1", &g_of_tops(alloc, circle)?)?;
    push_line(out, "H <S1,S1>", &h_of_square(alloc, circle)?)
}

#[test]
fn the_torus_has_a_reduction() {
    let circle = Term::Sphere(1);
    pairs_meet::<(), SpacePair<'_>>(&torus_pairs(&circle));
}
