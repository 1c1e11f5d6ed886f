// Keys that are asked for one after the other.
ghost use Rattle.std.specs.Prelude.{IfOk};
ghost use Rattle.homology_rules.specs.Asking.{MayForceEach, AskedFirst, EachAnswered, IsAnswered, up_to_refusal};

use oracle_iface::{CellValue, Forcer, Key, Outcome, Over, copy_key, copy_over};
use seqs::Arc;
use std::alloc::{AllocError, Global};

/// What keys come to that are asked for one after the other.
#[derive(Debug, Drop)]
pub enum Answers {
    /// The cells of all keys, in order. Each has a value.
    Values(Vec<Arc<CellValue>>),
    /// The first refusal.
    Over(Over),
}

/// Asks for keys in order, up to the first refusal.
pub fn ask_all<F: Forcer>(
    alloc: Global,
    keys: &[Key],
    forcer: &mut F,
) -> Result<Answers, AllocError>
    requires { MayForceEach F.may_force F.forces forcer.old keys.now }
    ensures asked { AskedFirst F.forces keys.now forcer.old forcer.new }
    ensures answers { IfOk result (λ a. IsAnswered F.forces keys.now forcer.old forcer.new a) }
    ensures through { IfOk result (λ a. EachAnswered F.forces forcer.old (up_to_refusal keys.now) forcer.new) }
{
    let mut values = Vec::with_capacity(alloc, keys.len())?;
    for key in keys {
        let cell = forcer.force(copy_key(alloc, key)?)?;
        match &cell.get().outcome {
            Outcome::Value(_) => values.push(cell)?,
            Outcome::Over(over) => return Ok(Answers::Over(copy_over(alloc, over)?)),
        }
    }
    Ok(Answers::Values(values))
}
