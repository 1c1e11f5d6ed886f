// The maps of the tensor product of two reductions, by asking for those of the parts.
ghost use Rattle.std.specs.Prelude.{IfOk};
ghost use Rattle.fp_field.specs.Field.{number};
ghost use Rattle.homology_rules.specs.Asking.{MayForceEach, AskedFirst, EachAnswered, up_to_refusal};
ghost use Rattle.homology_rules.specs.Shown.{HasShownValues};
ghost use Rattle.term_lang.specs.SpaceOf.{space_of};
ghost use Rattle.part_asks.specs.Along.{AsksValid};
ghost use Rattle.part_asks.specs.Askers.{g_tensor, t_tensor, formal_tensors, normal_tensors};
ghost use Rattle.part_asks.specs.OneKey.{IsOwnCell, IsOwnSmall};
ghost use Rattle.part_asks.specs.Reading.{keys_of, IsFound};

use crate::along::along_g;
use crate::found::Found;
use crate::parts::{part_f, part_g, part_h};
use crate::signed::homotopy;
use cells::dim;
use chain_core::Chain;
use fp_field::Prime;
use oracle_iface::{Forcer, Key};
use seqs::Arc;
use std::alloc::{AllocError, Global};
use tensor_red::{Tensor, product_of};
use term_lang::{Cell, SmallCell, Term};

/// G of a pair of small cells of base and fibre: the product of G of the two.
pub fn tensor_g<F: Forcer>(
    alloc: Global,
    p: Prime,
    left: &Arc<Term>,
    right: &Arc<Term>,
    y: &SmallCell,
    z: &SmallCell,
    forcer: &mut F,
) -> Result<Found<Chain<Tensor<Cell, Cell>>>, AllocError>
    requires left_part { HasShownValues (number p) (space_of left.now) }
    requires right_part { HasShownValues (number p) (space_of right.now) }
    requires left_cell { IsOwnSmall (space_of left.now) y.now }
    requires right_cell { IsOwnSmall (space_of right.now) z.now }
    requires valid { AsksValid p (g_tensor p (space_of left.now) (space_of right.now) y.now z.now) }
    requires asks { MayForceEach F.may_force F.forces forcer.old (keys_of p (g_tensor p (space_of left.now) (space_of right.now) y.now z.now)) }
    ensures asked { AskedFirst F.forces (keys_of p (g_tensor p (space_of left.now) (space_of right.now) y.now z.now)) forcer.old forcer.new }
    ensures through { IfOk result (λ o. EachAnswered F.forces forcer.old (up_to_refusal (keys_of p (g_tensor p (space_of left.now) (space_of right.now) y.now z.now))) forcer.new) }
    ensures found { IfOk result (λ o. IsFound (formal_tensors p (space_of left.now) (space_of right.now)) p (g_tensor p (space_of left.now) (space_of right.now) y.now z.now) o) }
{
    let u = match part_g(alloc, p, left, y, forcer)? {
        Found::Over(over) => return Ok(Found::Over(over)),
        Found::Value(u) => u,
    };
    let v = match part_g(alloc, p, right, z, forcer)? {
        Found::Over(over) => return Ok(Found::Over(over)),
        Found::Value(v) => v,
    };
    Ok(Found::Value(product_of(alloc, u, &v)?))
}

/// H of a tensor of cells of base and fibre: H of the left one times the right one, and, with the sign of the left degree, G of F of the
/// left one times H of the right one.
pub fn tensor_t<F: Forcer>(
    alloc: Global,
    left: &Key,
    right: &Key,
    x: &Tensor<Cell, Cell>,
    forcer: &mut F,
) -> Result<Found<Chain<Tensor<Cell, Cell>>>, AllocError>
    requires left_part { HasShownValues (number left.now.prime) (space_of left.now.term) }
    requires right_part { HasShownValues (number left.now.prime) (space_of right.now.term) }
    requires left_cell { IsOwnCell (space_of left.now.term) x.now.left }
    requires right_cell { IsOwnCell (space_of right.now.term) x.now.right }
    requires valid { AsksValid left.now.prime (t_tensor left.now.prime (space_of left.now.term) (space_of right.now.term) x.now) }
    requires asks { MayForceEach F.may_force F.forces forcer.old (keys_of left.now.prime (t_tensor left.now.prime (space_of left.now.term) (space_of right.now.term) x.now)) }
    ensures asked { AskedFirst F.forces (keys_of left.now.prime (t_tensor left.now.prime (space_of left.now.term) (space_of right.now.term) x.now)) forcer.old forcer.new }
    ensures through { IfOk result (λ o. EachAnswered F.forces forcer.old (up_to_refusal (keys_of left.now.prime (t_tensor left.now.prime (space_of left.now.term) (space_of right.now.term) x.now))) forcer.new) }
    ensures found { IfOk result (λ o. IsFound (normal_tensors left.now.prime (space_of left.now.term) (space_of right.now.term)) left.now.prime (t_tensor left.now.prime (space_of left.now.term) (space_of right.now.term) x.now) o) }
{
    let own = match part_h(alloc, left.prime, &left.term, &x.left, forcer)? {
        Found::Over(over) => return Ok(Found::Over(over)),
        Found::Value(own) => own,
    };
    let image = match part_f(alloc, left.prime, &left.term, &x.left, forcer)? {
        Found::Over(over) => return Ok(Found::Over(over)),
        Found::Value(image) => image,
    };
    let back = match along_g(alloc, left, &image, forcer)? {
        Found::Over(over) => return Ok(Found::Over(over)),
        Found::Value(back) => back,
    };
    let other = match part_h(alloc, left.prime, &right.term, &x.right, forcer)? {
        Found::Over(over) => return Ok(Found::Over(over)),
        Found::Value(other) => other,
    };
    Ok(Found::Value(homotopy(alloc, dim(&x.left), &x.right, own, back, other)?))
}
