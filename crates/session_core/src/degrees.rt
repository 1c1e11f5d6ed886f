// The small cells of a degree and of the next one, with their small differentials.
ghost use Rattle.std.specs.Prelude.{◌≡◌, ◌+◌, ◌<◌, ◌^◌, IfOk};
ghost use Rattle.homology_rules.specs.Asking.{MayForceEach, AskedFirst};
ghost use Rattle.session_core.specs.Along.{ComesAlong};
ghost use Rattle.session_core.specs.Dimensions.{keys_of_dimension, AreDegrees};

use crate::answered::Answered;
use homology_rules::{DegreeAnswers, ask_degree};
use oracle_iface::{CellValue, Forcer, Key};
use seqs::Arc;
use std::alloc::{AllocError, Global};

/// The small cells of a degree and of the next one, and the small differential of each, as cells of the table.
#[derive(Debug, Drop)]
pub struct TwoDegrees {
    pub cells: Arc<CellValue>,
    pub chains: Vec<Arc<CellValue>>,
    pub next_cells: Arc<CellValue>,
    pub next_chains: Vec<Arc<CellValue>>,
}

/// Asks for the small cells of a degree and the small differential of each, and then for those of the next
/// degree, up to the first refusal.
pub(crate) fn ask_two_degrees<F: Forcer>(
    alloc: Global,
    key: &Key,
    n: u32,
    forcer: &mut F,
) -> Result<Answered<TwoDegrees>, AllocError>
    requires degree { n + 1 < 2 ^ 32 }
    requires forcer { MayForceEach F.may_force F.forces forcer.old (keys_of_dimension key.now n) }
    ensures asked { AskedFirst F.forces (keys_of_dimension key.now n) forcer.old forcer.new }
    ensures answer { IfOk result (λ a. ComesAlong F.forces (keys_of_dimension key.now n) (λ d. AreDegrees F.forces key.now n d) forcer.old forcer.new a) }
{
    let (cells, chains) = match ask_degree(alloc, key, n, forcer)? {
        DegreeAnswers::Over(over) => return Ok(Answered::Over(over)),
        DegreeAnswers::Found(cells, chains) => (cells, chains),
    };
    match ask_degree(alloc, key, n + 1, forcer)? {
        DegreeAnswers::Over(over) => Ok(Answered::Over(over)),
        DegreeAnswers::Found(next_cells, next_chains) => Ok(Answered::Told(TwoDegrees {
            cells,
            chains,
            next_cells,
            next_chains,
        })),
    }
}
