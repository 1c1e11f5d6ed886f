// The small cells of a degree, with their small differentials.
ghost use Rattle.std.specs.Prelude.{◌≡◌, IfOk};
ghost use Rattle.homology_rules.specs.Asking.{MayForceEach, AskedFirst, EachAnswered, up_to_refusal};
ghost use Rattle.homology_rules.specs.Degrees.{HasCells, cells_held, degree_key_of, keys_of_degree, IsDegreeAnswer};

use crate::asking::{Answers, ask_all};
use crate::keys::small_keys;
use oracle_iface::{Body, CellValue, Forcer, Key, Op, Outcome, Over, Place, copy_over};
use seqs::Arc;
use std::alloc::{AllocError, Global};
use term_lang::SmallList;

/// What comes of the keys of a degree.
#[derive(Debug, Drop)]
pub enum DegreeAnswers {
    /// The cells of the table: the small cells of the degree, and the small differential of each.
    Found(Arc<CellValue>, Vec<Arc<CellValue>>),
    /// The first refusal.
    Over(Over),
}

/// The small cells that a cell of the table holds.
pub fn small_cells(cell: &CellValue) -> &SmallList
    requires { HasCells cell.now.outcome }
    ensures { result.now ≡ cells_held cell.now.outcome }
{
    match &cell.outcome {
        Outcome::Value(Body::Cells(cells)) => cells,
        _ => unreachable!(),
    }
}

/// The key of the small cells of a degree, of the space of a key and over its field.
fn degree_key(key: &Key, n: u32) -> Result<Key, AllocError>
    ensures { IfOk result (λ k. k ≡ degree_key_of key.now n) }
{
    Ok(Key {
        op: Op::Basis,
        prime: key.prime,
        place: Place::Degree(n),
        term: key.term.clone()?,
    })
}

/// Asks for the small cells of a degree, and then for the small differential of each, up to the first
/// refusal.
pub fn ask_degree<F: Forcer>(
    alloc: Global,
    key: &Key,
    n: u32,
    forcer: &mut F,
) -> Result<DegreeAnswers, AllocError>
    requires { MayForceEach F.may_force F.forces forcer.old (keys_of_degree key.now n) }
    ensures asked { AskedFirst F.forces (keys_of_degree key.now n) forcer.old forcer.new }
    ensures answers { IfOk result (λ a. IsDegreeAnswer F.forces key.now n forcer.old forcer.new a) }
    ensures through { IfOk result (λ a. EachAnswered F.forces forcer.old (up_to_refusal (keys_of_degree key.now n)) forcer.new) }
{
    let cells = forcer.force(degree_key(key, n)?)?;
    if let Outcome::Over(over) = &cells.get().outcome {
        return Ok(DegreeAnswers::Over(copy_over(alloc, over)?));
    }
    let keys = small_keys(alloc, key, Op::SmallD, small_cells(cells.get()).as_slice())?;
    match ask_all(alloc, &keys, forcer)? {
        Answers::Over(over) => Ok(DegreeAnswers::Over(over)),
        Answers::Values(chains) => Ok(DegreeAnswers::Found(cells, chains)),
    }
}
