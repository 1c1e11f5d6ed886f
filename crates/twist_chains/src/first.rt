// The first perturbation of products and circle bundles, on chains of the code.
ghost use Rattle.std.specs.Prelude.{◌≡◌, suc, ◌-◌, ◌≤◌, ◌^◌, IfOk};
ghost use Rattle.std.specs.Option.{option_copied};
ghost use Rattle.fp_field.specs.Field.{number};
ghost use Rattle.fp_field.specs.Chains.{EachKey};
ghost use Rattle.term_lang.specs.SpaceOf.{space_of};
ghost use Rattle.twist_chains.specs.Fibred.{AreTwistValues, room, IsPairWithin, IsTensorWithin, tensors_of, lifted_of, homotopy_of, difference_of};

use crate::fibred::{Fibred, widened};
use crate::steps::{FlowMap, FrontMap, ShuffleMap, TwistMap};
use cells::Cell;
use chain_core::Chain;
use ez_maps::Tensor;
use perturb::series::series;
use reduct_laws::apply;
use std::alloc::{AllocError, Global};

/// S1 and then Alexander-Whitney on a chain of pairs of degree n.
pub fn to_tensors(
    alloc: Global,
    f: &Fibred,
    n: u32,
    c: &Chain<Cell>,
) -> Result<Chain<Tensor<Cell, Cell>>, AllocError>
    requires values { AreTwistValues (option_copied f.now.values) (space_of f.now.pair.left.term.now) (space_of f.now.pair.right.term.now) }
    requires degree { n ≤ 31 }
    requires prime { c.now.prime ≡ f.now.p }
    requires room { room (option_copied f.now.values) n f.now.pair.most ≤ 2 ^ 40 }
    requires pairs { EachKey (IsPairWithin (space_of f.now.pair.left.term.now) (space_of f.now.pair.right.term.now) f.now.pair.most n) c.now.terms }
    ensures prime { IfOk result (λ r. r.prime ≡ f.now.p) }
    ensures terms { IfOk result (λ r. r.terms ≡ tensors_of (space_of f.now.pair.left.term.now) (space_of f.now.pair.right.term.now) (option_copied f.now.values) (number f.now.p) n c.now.terms) }
    ensures tensors { IfOk result (λ r. EachKey (IsTensorWithin (space_of f.now.pair.left.term.now) (space_of f.now.pair.right.term.now)
        (room (option_copied f.now.values) n f.now.pair.most) n) r.terms) }
{
    let pair = widened(f, n);
    let flow = FlowMap {
        pair: &pair,
        p: f.p,
    };
    let twist = TwistMap {
        pair: &pair,
        values: f.values,
        p: f.p,
    };
    let front = FrontMap {
        pair: &pair,
        p: f.p,
    };
    if f.values.is_none() {
        let _ = c.terms();
        return apply(alloc, &mut (), &front, c);
    }
    let sum = series(alloc, &mut (), &flow, &twist, n as u64 + 1, c.clone()?)?;
    apply(alloc, &mut (), &front, &sum)
}

/// Eilenberg-Mac Lane and then P1 on a chain of tensors of degree n.
pub fn lifted(
    alloc: Global,
    f: &Fibred,
    n: u32,
    c: &Chain<Tensor<Cell, Cell>>,
) -> Result<Chain<Cell>, AllocError>
    requires values { AreTwistValues (option_copied f.now.values) (space_of f.now.pair.left.term.now) (space_of f.now.pair.right.term.now) }
    requires degree { n ≤ 32 }
    requires prime { c.now.prime ≡ f.now.p }
    requires room { room (option_copied f.now.values) n f.now.pair.most ≤ 2 ^ 40 }
    requires tensors { EachKey (IsTensorWithin (space_of f.now.pair.left.term.now) (space_of f.now.pair.right.term.now) f.now.pair.most n) c.now.terms }
    ensures prime { IfOk result (λ r. r.prime ≡ f.now.p) }
    ensures terms { IfOk result (λ r. r.terms ≡ lifted_of (space_of f.now.pair.left.term.now) (space_of f.now.pair.right.term.now) (option_copied f.now.values) (number f.now.p) n c.now.terms) }
    ensures pairs { IfOk result (λ r. EachKey (IsPairWithin (space_of f.now.pair.left.term.now) (space_of f.now.pair.right.term.now)
        (room (option_copied f.now.values) n f.now.pair.most) n) r.terms) }
{
    let pair = widened(f, n);
    let flow = FlowMap {
        pair: &pair,
        p: f.p,
    };
    let twist = TwistMap {
        pair: &pair,
        values: f.values,
        p: f.p,
    };
    let shuffle = ShuffleMap {
        pair: &pair,
        p: f.p,
    };
    let pairs = apply(alloc, &mut (), &shuffle, c)?;
    if f.values.is_none() {
        return Ok(pairs);
    }
    series(alloc, &mut (), &twist, &flow, n as u64 + 1, pairs)
}

/// Alexander-Whitney after the twist after P1 and Eilenberg-Mac Lane, on a chain of tensors of degree n.
pub fn difference(
    alloc: Global,
    f: &Fibred,
    n: u32,
    c: &Chain<Tensor<Cell, Cell>>,
) -> Result<Chain<Tensor<Cell, Cell>>, AllocError>
    requires values { AreTwistValues (option_copied f.now.values) (space_of f.now.pair.left.term.now) (space_of f.now.pair.right.term.now) }
    requires degree { n ≤ 32 }
    requires prime { c.now.prime ≡ f.now.p }
    requires room { room (option_copied f.now.values) n f.now.pair.most ≤ 2 ^ 40 }
    requires tensors { EachKey (IsTensorWithin (space_of f.now.pair.left.term.now) (space_of f.now.pair.right.term.now) f.now.pair.most n) c.now.terms }
    ensures prime { IfOk result (λ r. r.prime ≡ f.now.p) }
    ensures terms { IfOk result (λ r. r.terms ≡ difference_of (space_of f.now.pair.left.term.now) (space_of f.now.pair.right.term.now) (option_copied f.now.values) (number f.now.p) n c.now.terms) }
    ensures tensors { IfOk result (λ r. EachKey (IsTensorWithin (space_of f.now.pair.left.term.now) (space_of f.now.pair.right.term.now)
        (room (option_copied f.now.values) n f.now.pair.most) (n - 1)) r.terms) }
{
    if f.values.is_none() {
        return Ok(Chain::new(alloc, f.p));
    }
    let pair = widened(f, n);
    let flow = FlowMap {
        pair: &pair,
        p: f.p,
    };
    let twist = TwistMap {
        pair: &pair,
        values: f.values,
        p: f.p,
    };
    let shuffle = ShuffleMap {
        pair: &pair,
        p: f.p,
    };
    let front = FrontMap {
        pair: &pair,
        p: f.p,
    };
    let pairs = apply(alloc, &mut (), &shuffle, c)?;
    let sum = series(alloc, &mut (), &twist, &flow, n as u64 + 1, pairs)?;
    let twisted = apply(alloc, &mut (), &twist, &sum)?;
    apply(alloc, &mut (), &front, &twisted)
}

/// The flow and then P1 on a chain of pairs of degree n, with values of degree n + 1.
pub fn first_homotopy(
    alloc: Global,
    f: &Fibred,
    n: u32,
    c: &Chain<Cell>,
) -> Result<Chain<Cell>, AllocError>
    requires values { AreTwistValues (option_copied f.now.values) (space_of f.now.pair.left.term.now) (space_of f.now.pair.right.term.now) }
    requires degree { n ≤ 31 }
    requires prime { c.now.prime ≡ f.now.p }
    requires room { room (option_copied f.now.values) n f.now.pair.most ≤ 2 ^ 40 }
    requires pairs { EachKey (IsPairWithin (space_of f.now.pair.left.term.now) (space_of f.now.pair.right.term.now) f.now.pair.most n) c.now.terms }
    ensures prime { IfOk result (λ r. r.prime ≡ f.now.p) }
    ensures terms { IfOk result (λ r. r.terms ≡ homotopy_of (space_of f.now.pair.left.term.now) (space_of f.now.pair.right.term.now) (option_copied f.now.values) (number f.now.p) n c.now.terms) }
    ensures pairs { IfOk result (λ r. EachKey (IsPairWithin (space_of f.now.pair.left.term.now) (space_of f.now.pair.right.term.now)
        (room (option_copied f.now.values) n f.now.pair.most) (suc n)) r.terms) }
{
    let pair = widened(f, n);
    let flow = FlowMap {
        pair: &pair,
        p: f.p,
    };
    let twist = TwistMap {
        pair: &pair,
        values: f.values,
        p: f.p,
    };
    let raised = apply(alloc, &mut (), &flow, c)?;
    if f.values.is_none() {
        return Ok(raised);
    }
    series(alloc, &mut (), &twist, &flow, n as u64 + 2, raised)
}
