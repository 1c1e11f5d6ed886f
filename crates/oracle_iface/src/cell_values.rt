// Cells of the table of results.
ghost use Rattle.oracle_iface.specs.Stands.{IsOutcome};

use crate::bodies::Outcome;
use crate::keys::Key;
use seqs::Arc;

/// A cell of the table of results: a key, which the table shares, with what it comes to. That this is the
/// outcome that is defined for the key is a part of the type.
#[derive(Debug, Drop)]
pub struct CellValue {
    pub key: Arc<Key>,
    pub outcome: Outcome,
    pub ghost right: { IsOutcome key outcome },
}
