// The dimensions of the homology of a space, by asking.
ghost use Rattle.std.specs.Prelude.{◌≡◌, ◌≤◌, ◌<◌, ◌+◌, ◌-◌, ◌^◌, ℕ, suc, IfOk, IfSome, length};
ghost use Rattle.std.specs.List.Sorted.{IsStrictlySortedBy};
ghost use Rattle.fp_field.specs.Field.{number};
ghost use Rattle.cells.specs.Small.{small_cmp};
ghost use Rattle.homology_rules.specs.Asking.{MayForceEach, AskedFirst};
ghost use Rattle.homology_rules.specs.Degrees.{cells_at, chains_at};
ghost use Rattle.session_core.specs.Along.{ComesAlong};
ghost use Rattle.session_core.specs.Dimensions.{nullity_over, keys_of_dimension, dimension_at, keys_of_dimensions, dimensions_at};

use crate::answered::Answered;
use crate::counts::{Counted, count_degree};
use crate::degrees::ask_two_degrees;
use homology_rules::small_cells;
use oracle_iface::{Forcer, Key};
use seqs::{Seq, new_seq};
use std::alloc::{AllocError, Global};

/// The dimension of one degree, and the nullity of the next one where it comes with it. The nullity of the
/// degree may be known.
fn count_dimension<F: Forcer>(
    alloc: Global,
    key: &Key,
    n: u32,
    known: Option<usize>,
    forcer: &mut F,
) -> Result<Answered<Counted>, AllocError>
    requires degree { n + 1 < 2 ^ 32 }
    requires rising { IsStrictlySortedBy small_cmp (cells_at key.now n) }
    requires known { IfSome known (λ m. m ≡ nullity_over small_cmp (number key.now.prime) (length (cells_at key.now n)) (chains_at key.now (cells_at key.now n))) }
    requires forcer { MayForceEach F.may_force F.forces forcer.old (keys_of_dimension key.now n) }
    ensures asked { AskedFirst F.forces (keys_of_dimension key.now n) forcer.old forcer.new }
    ensures answer { IfOk result (λ a. ComesAlong F.forces (keys_of_dimension key.now n) (λ c. (c.dimension ≡ dimension_at key.now n)
        × IfSome c.next (λ m. m ≡ nullity_over small_cmp (number key.now.prime) (length (cells_at key.now (n + 1))) (chains_at key.now (cells_at key.now (n + 1))))) forcer.old forcer.new a) }
{
    let degrees = match ask_two_degrees(alloc, key, n, forcer)? {
        Answered::Over(over) => return Ok(Answered::Over(over)),
        Answered::Told(degrees) => degrees,
    };
    let cells = small_cells(degrees.cells.get()).as_slice();
    let counted = count_degree(
        alloc,
        key.prime,
        cells,
        &degrees.chains,
        &degrees.next_chains,
        known,
    )?;
    Ok(Answered::Told(counted))
}

/// The dimensions of the homology of the space of a key, over its field, in the degrees from `low` to `high`:
/// asks, degree by degree, for the small cells and their small differentials, and for those one degree higher.
pub(crate) fn count_dimensions<F: Forcer>(
    alloc: Global,
    key: &Key,
    low: u32,
    high: u32,
    forcer: &mut F,
) -> Result<Answered<Seq<u64>>, AllocError>
    requires degree { high + 1 < 2 ^ 32 }
    requires rising { (n : ℕ) → n ≤ high → IsStrictlySortedBy small_cmp (cells_at key.now n) }
    requires forcer { MayForceEach F.may_force F.forces forcer.old (keys_of_dimensions key.now low (suc high - low)) }
    ensures asked { AskedFirst F.forces (keys_of_dimensions key.now low (suc high - low)) forcer.old forcer.new }
    ensures answer { IfOk result (λ a. ComesAlong F.forces (keys_of_dimensions key.now low (suc high - low)) (λ l. l ≡ dimensions_at key.now low (suc high - low)) forcer.old forcer.new a) }
{
    let mut numbers = new_seq(alloc);
    let mut known = None;
    let mut n = low;
    while n <= high {
        let counted = match count_dimension(alloc, key, n, known, forcer)? {
            Answered::Over(over) => return Ok(Answered::Over(over)),
            Answered::Told(counted) => counted,
        };
        numbers.push(counted.dimension as u64)?;
        known = counted.next;
        n += 1;
    }
    Ok(Answered::Told(numbers))
}
