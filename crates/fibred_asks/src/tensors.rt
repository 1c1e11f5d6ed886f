// The homotopy of tensors along a chain.
ghost use Rattle.std.specs.Prelude.{◌≡◌, suc, ◌≤◌, IfOk};
ghost use Rattle.fp_field.specs.Chains.{EachKey};
ghost use Rattle.homology_rules.specs.Asking.{MayForceEach, AskedFirst, EachAnswered, up_to_refusal};
ghost use Rattle.part_asks.specs.Along.{AsksValid};
ghost use Rattle.part_asks.specs.Askers.{formal_tensors};
ghost use Rattle.part_asks.specs.Reading.{keys_of, IsFound};
ghost use Rattle.fibred_asks.specs.Parts.{AreParts, IfFound, EachIn};
ghost use Rattle.fibred_asks.specs.Reached.{limited_reach};
ghost use Rattle.fibred_asks.specs.Asked.{prime_of, base_of, fibre_of, IsTensorIn, h_asked};

use crate::maps::Maps;
use cells::Cell;
use chain_core::Chain;
use ez_maps::Tensor;
use oracle_iface::Forcer;
use part_asks::{Found, push_scaled, tensor_t};
use std::alloc::{AllocError, Global};

/// h of the tensor product of the reductions of base and fibre along a chain of tensors of degree n, whose cells have a reach of at most
/// `most`: for each tensor in order it asks for H of the left cell, F of it, G along that, and H of the right cell.
pub fn on_tensors<F: Forcer>(
    alloc: Global,
    m: &Maps,
    n: u32,
    most: u64,
    c: &Chain<Tensor<Cell, Cell>>,
    forcer: &mut F,
) -> Result<Found<Chain<Tensor<Cell, Cell>>>, AllocError>
    requires parts { AreParts (prime_of m.now) (base_of m.now) (fibre_of m.now) }
    requires degree { n ≤ 31 }
    requires reach { limited_reach ≤ most }
    requires prime { c.now.prime ≡ (prime_of m.now) }
    requires tensors { EachKey (IsTensorIn m.now most n) c.now.terms }
    requires valid { AsksValid (prime_of m.now) (h_asked m.now c.now.terms) }
    requires asks { MayForceEach F.may_force F.forces forcer.old (keys_of (prime_of m.now) (h_asked m.now c.now.terms)) }
    ensures asked { AskedFirst F.forces (keys_of (prime_of m.now) (h_asked m.now c.now.terms)) forcer.old forcer.new }
    ensures through { IfOk result (λ o. EachAnswered F.forces forcer.old (up_to_refusal (keys_of (prime_of m.now) (h_asked m.now c.now.terms))) forcer.new) }
    ensures found { IfOk result (λ o. IsFound (formal_tensors (prime_of m.now) (base_of m.now) (fibre_of m.now)) (prime_of m.now) (h_asked m.now c.now.terms) o) }
    ensures tensors { IfOk result (λ o. IfFound (EachIn (IsTensorIn m.now most (suc n))) o) }
{
    let mut terms = Vec::new(alloc);
    for (x, coefficient) in c.terms() {
        match tensor_t(alloc, m.base, m.fibre, x, forcer)? {
            Found::Over(over) => return Ok(Found::Over(over)),
            Found::Value(image) => push_scaled(&mut terms, &image, *coefficient)?,
        }
    }
    Ok(Found::Value(Chain::from_terms(alloc, m.base.prime, terms)?))
}
