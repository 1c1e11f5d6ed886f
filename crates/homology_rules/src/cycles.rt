// The cycles of a degree, by asking.
ghost use Rattle.std.specs.Prelude.{◌+◌, ◌<◌, ◌^◌, IfOk};
ghost use Rattle.std.specs.List.Sorted.{IsStrictlySortedBy};
ghost use Rattle.cells.specs.Small.{small_cmp};
ghost use Rattle.homology_rules.specs.Asking.{MayForceEach, AskedFirst};
ghost use Rattle.homology_rules.specs.Degrees.{cells_at, keys_of_cycles, IsCyclesAnswer};

use crate::carrying::{CarriedList, carry_all};
use crate::degrees::{DegreeAnswers, ask_degree, small_cells};
use crate::spans::cycle_rows;
use oracle_iface::{Body, Forcer, Key, Outcome};
use std::alloc::{AllocError, Global};

/// The cycles of a degree of the space of a key, over its field: asks for the small cells of the degree and
/// their small differentials, then for those one degree higher, and then for G at the small cells of each
/// vector of cycles, up to the first refusal.
pub fn cycles_by_asking<F: Forcer>(
    alloc: Global,
    key: &Key,
    n: u32,
    forcer: &mut F,
) -> Result<Outcome, AllocError>
    requires degree { n + 1 < 2 ^ 32 }
    requires rising { IsStrictlySortedBy small_cmp (cells_at key.now n) }
    requires forcer { MayForceEach F.may_force F.forces forcer.old (keys_of_cycles key.now n) }
    ensures asked { AskedFirst F.forces (keys_of_cycles key.now n) forcer.old forcer.new }
    ensures outcome { IfOk result (λ o. IsCyclesAnswer F.forces key.now n forcer.old forcer.new o) }
{
    let (held, chains) = match ask_degree(alloc, key, n, forcer)? {
        DegreeAnswers::Over(over) => return Ok(Outcome::Over(over)),
        DegreeAnswers::Found(held, chains) => (held, chains),
    };
    let above = match ask_degree(alloc, key, n + 1, forcer)? {
        DegreeAnswers::Over(over) => return Ok(Outcome::Over(over)),
        DegreeAnswers::Found(_, above) => above,
    };
    let cells = small_cells(held.get()).as_slice();
    let vectors = cycle_rows(alloc, key.prime, cells, &chains, &above)?;
    match carry_all(alloc, key, cells, vectors.rows().as_slice(), forcer)? {
        CarriedList::Over(over) => Ok(Outcome::Over(over)),
        CarriedList::Chains(list) => Ok(Outcome::Value(Body::Many(list))),
    }
}
