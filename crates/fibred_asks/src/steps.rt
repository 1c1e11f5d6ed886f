// One step of the sums of the second perturbation: the difference and the homotopy of tensors, in either order.
ghost use Rattle.std.specs.Prelude.{◌≡◌, ◌-◌, ◌≤◌, ◌^◌, IfOk};
ghost use Rattle.fp_field.specs.Field.{number};
ghost use Rattle.fp_field.specs.Chains.{EachKey};
ghost use Rattle.homology_rules.specs.Asking.{MayForceEach, AskedFirst, EachAnswered, up_to_refusal};
ghost use Rattle.space_faces.specs.Built.{IsAllowedBuilt};
ghost use Rattle.part_asks.specs.Along.{AsksValid};
ghost use Rattle.part_asks.specs.Askers.{formal_tensors};
ghost use Rattle.part_asks.specs.Reading.{keys_of, IsFound};
ghost use Rattle.twist_chains.specs.Fibred.{room, difference_of};
ghost use Rattle.fibred_asks.specs.declared.steps.First.TheVariants.{Difference, Homotopy};
ghost use Rattle.fibred_asks.specs.Parts.{AreParts, IfFound, EachIn};
ghost use Rattle.fibred_asks.specs.Reached.{limited_reach};
ghost use Rattle.fibred_asks.specs.Asked.{prime_of, base_of, fibre_of, values_of, HasTwist, IsTensorIn};
ghost use Rattle.fibred_asks.specs.Steps.{top_of, end_of, step_asked, IsStepOf};

use crate::maps::{Maps, fibred};
use crate::tensors::on_tensors;
use cells::Cell;
use chain_core::Chain;
use ez_maps::Tensor;
use oracle_iface::Forcer;
use part_asks::Found;
use std::alloc::{AllocError, Global};
use twist_chains::{difference, widened};

/// Which of the two maps of a step comes first.
#[derive(Clone, Copy)]
pub enum First {
    /// The difference, and then the homotopy.
    Difference,
    /// The homotopy, and then the difference.
    Homotopy,
}

/// One degree less, and 0 in degree 0.
fn lower(n: u32) -> u32
    ensures { result ≡ n - 1 }
{
    if n == 0 { 0 } else { n - 1 }
}

/// The degree in which a step of the series in degree n takes the difference.
pub fn top(first: First, n: u32) -> u32
    requires { top_of first n ≤ 32 }
    ensures { result ≡ top_of first n }
{
    match first {
        First::Difference => n,
        First::Homotopy => n + 1,
    }
}

/// The reach that a difference in degree n leaves room for, from tensors with a reach of at most `most`.
pub fn reach_after(m: &Maps, n: u32, most: u64) -> u64
    requires base { IsAllowedBuilt (base_of m.now) }
    requires fibre { IsAllowedBuilt (fibre_of m.now) }
    requires degree { n ≤ 32 }
    requires room { room (values_of m.now) n most ≤ 2 ^ 40 }
    ensures { result ≡ room (values_of m.now) n most }
{
    widened(&fibred(m, most), n).most
}

/// The difference of a chain of tensors of degree n.
fn difference_in(
    alloc: Global,
    m: &Maps,
    n: u32,
    most: u64,
    c: &Chain<Tensor<Cell, Cell>>,
) -> Result<Chain<Tensor<Cell, Cell>>, AllocError>
    requires base { IsAllowedBuilt (base_of m.now) }
    requires fibre { IsAllowedBuilt (fibre_of m.now) }
    requires values { HasTwist m.now }
    requires degree { n ≤ 32 }
    requires room { room (values_of m.now) n most ≤ 2 ^ 40 }
    requires prime { c.now.prime ≡ (prime_of m.now) }
    requires tensors { EachKey (IsTensorIn m.now most n) c.now.terms }
    ensures prime { IfOk result (λ d. d.prime ≡ (prime_of m.now)) }
    ensures terms { IfOk result (λ d. d.terms ≡ difference_of (base_of m.now) (fibre_of m.now) (values_of m.now) (number (prime_of m.now)) n c.now.terms) }
    ensures tensors { IfOk result (λ d. EachKey (IsTensorIn m.now (room (values_of m.now) n most) (n - 1)) d.terms) }
{
    difference(alloc, &fibred(m, most), n, c)
}

/// The homotopy of the difference of a chain of tensors of degree n.
fn homotopy_of_difference<F: Forcer>(
    alloc: Global,
    m: &Maps,
    n: u32,
    most: u64,
    c: &Chain<Tensor<Cell, Cell>>,
    forcer: &mut F,
) -> Result<Found<Chain<Tensor<Cell, Cell>>>, AllocError>
    requires parts { AreParts (prime_of m.now) (base_of m.now) (fibre_of m.now) }
    requires values { HasTwist m.now }
    requires degree { n ≤ 32 }
    requires reach { limited_reach ≤ most }
    requires room { room (values_of m.now) n most ≤ 2 ^ 40 }
    requires prime { c.now.prime ≡ (prime_of m.now) }
    requires tensors { EachKey (IsTensorIn m.now most n) c.now.terms }
    requires valid { AsksValid (prime_of m.now) (step_asked m.now Difference n c.now.terms) }
    requires asks { MayForceEach F.may_force F.forces forcer.old (keys_of (prime_of m.now) (step_asked m.now Difference n c.now.terms)) }
    ensures asked { AskedFirst F.forces (keys_of (prime_of m.now) (step_asked m.now Difference n c.now.terms)) forcer.old forcer.new }
    ensures through { IfOk result (λ o. EachAnswered F.forces forcer.old (up_to_refusal (keys_of (prime_of m.now) (step_asked m.now Difference n c.now.terms))) forcer.new) }
    ensures found { IfOk result (λ o. IsFound (formal_tensors (prime_of m.now) (base_of m.now) (fibre_of m.now)) (prime_of m.now) (step_asked m.now Difference n c.now.terms) o) }
    ensures back { IfOk result (λ o. IfFound (IsStepOf m.now Difference n c.now.terms) o) }
    ensures tensors { IfOk result (λ o. IfFound (EachIn (IsTensorIn m.now (room (values_of m.now) n most) (end_of Difference n))) o) }
{
    let change = difference_in(alloc, m, n, most, c)?;
    on_tensors(alloc, m, lower(n), reach_after(m, n, most), &change, forcer)
}

/// The difference of the homotopy of a chain of tensors of degree n.
fn difference_of_homotopy<F: Forcer>(
    alloc: Global,
    m: &Maps,
    n: u32,
    most: u64,
    c: &Chain<Tensor<Cell, Cell>>,
    forcer: &mut F,
) -> Result<Found<Chain<Tensor<Cell, Cell>>>, AllocError>
    requires parts { AreParts (prime_of m.now) (base_of m.now) (fibre_of m.now) }
    requires values { HasTwist m.now }
    requires degree { top_of Homotopy n ≤ 32 }
    requires reach { limited_reach ≤ most }
    requires room { room (values_of m.now) (top_of Homotopy n) most ≤ 2 ^ 40 }
    requires prime { c.now.prime ≡ (prime_of m.now) }
    requires tensors { EachKey (IsTensorIn m.now most n) c.now.terms }
    requires valid { AsksValid (prime_of m.now) (step_asked m.now Homotopy n c.now.terms) }
    requires asks { MayForceEach F.may_force F.forces forcer.old (keys_of (prime_of m.now) (step_asked m.now Homotopy n c.now.terms)) }
    ensures asked { AskedFirst F.forces (keys_of (prime_of m.now) (step_asked m.now Homotopy n c.now.terms)) forcer.old forcer.new }
    ensures through { IfOk result (λ o. EachAnswered F.forces forcer.old (up_to_refusal (keys_of (prime_of m.now) (step_asked m.now Homotopy n c.now.terms))) forcer.new) }
    ensures found { IfOk result (λ o. IsFound (formal_tensors (prime_of m.now) (base_of m.now) (fibre_of m.now)) (prime_of m.now) (step_asked m.now Homotopy n c.now.terms) o) }
    ensures back { IfOk result (λ o. IfFound (IsStepOf m.now Homotopy n c.now.terms) o) }
    ensures tensors { IfOk result (λ o. IfFound (EachIn (IsTensorIn m.now (room (values_of m.now) (top_of Homotopy n) most) n)) o) }
{
    let raised = match on_tensors(alloc, m, n, most, c, forcer)? {
        Found::Over(over) => return Ok(Found::Over(over)),
        Found::Value(raised) => raised,
    };
    Ok(Found::Value(difference_in(alloc, m, n + 1, most, &raised)?))
}

/// A step of the series in degree n.
pub fn step<F: Forcer>(
    alloc: Global,
    m: &Maps,
    first: First,
    n: u32,
    most: u64,
    c: &Chain<Tensor<Cell, Cell>>,
    forcer: &mut F,
) -> Result<Found<Chain<Tensor<Cell, Cell>>>, AllocError>
    requires parts { AreParts (prime_of m.now) (base_of m.now) (fibre_of m.now) }
    requires values { HasTwist m.now }
    requires degree { top_of first n ≤ 32 }
    requires reach { limited_reach ≤ most }
    requires room { room (values_of m.now) (top_of first n) most ≤ 2 ^ 40 }
    requires prime { c.now.prime ≡ (prime_of m.now) }
    requires tensors { EachKey (IsTensorIn m.now most n) c.now.terms }
    requires valid { AsksValid (prime_of m.now) (step_asked m.now first n c.now.terms) }
    requires asks { MayForceEach F.may_force F.forces forcer.old (keys_of (prime_of m.now) (step_asked m.now first n c.now.terms)) }
    ensures asked { AskedFirst F.forces (keys_of (prime_of m.now) (step_asked m.now first n c.now.terms)) forcer.old forcer.new }
    ensures through { IfOk result (λ o. EachAnswered F.forces forcer.old (up_to_refusal (keys_of (prime_of m.now) (step_asked m.now first n c.now.terms))) forcer.new) }
    ensures found { IfOk result (λ o. IsFound (formal_tensors (prime_of m.now) (base_of m.now) (fibre_of m.now)) (prime_of m.now) (step_asked m.now first n c.now.terms) o) }
    ensures back { IfOk result (λ o. IfFound (IsStepOf m.now first n c.now.terms) o) }
    ensures tensors { IfOk result (λ o. IfFound (EachIn (IsTensorIn m.now (room (values_of m.now) (top_of first n) most) (end_of first n))) o) }
{
    match first {
        First::Difference => homotopy_of_difference(alloc, m, n, most, c, forcer),
        First::Homotopy => difference_of_homotopy(alloc, m, n, most, c, forcer),
    }
}
