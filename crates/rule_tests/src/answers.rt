// What is published while keys are answered by the rules.
ghost use Rattle.susp_rules.specs.Treated.{IsTreated};
ghost use Rattle.std.specs.Prelude.{◌≡◌, ◌<◌, IfOk};

use crate::published::Published;
use crate::texts::unframed;
use force_engine::{Steps, new_engine};
use oracle_iface::{CellValue, Key};
use rule_book::Rules;
use seqs::Arc;
use session_core::{Answerer, new_session};
use std::alloc::{AllocError, Global};
use std::marker::Brand;
use std::sync::ledger::{Blank, Ledger};

/// What answers keys by the rules, over a table of its own.
#[derive(Drop)]
struct ByRules {
    alloc: Global,
    table: Published,
}

/// Forces a key by an engine of its own, whose steps nobody reads.
fn forced<L: Ledger>(
    alloc: Global,
    table: &mut Published,
    key: Key,
    blank: Blank,
) -> Result<Arc<CellValue>, AllocError>
    requires treats { IsTreated key }
    requires blank { (blank.name ≡ L.name) × (blank.parts ≡ L.parts) × (0 < blank.parts) }
    ensures { IfOk result (λ v. v.key ≡ key) }
{
    let rules = Rules;
    let mut steps: Steps<L> = Steps::new(blank);
    let mut engine = new_engine(&rules, table);
    engine.force(alloc, key, &mut steps)
}

impl Answerer for ByRules {
    ghost may_answer = { λ s k. IsTreated k };

    ghost answers = { λ s k r t. Unit {0} };

    fn cell(&mut self, key: Key) -> Result<Arc<CellValue>, AllocError> {
        forced::<Brand>(self.alloc, &mut self.table, key, Blank::new(1))
    }
}

/// The transcript of a session: each line that is typed behind `> `, and the cells that are published before its reply, in their order.
pub(crate) fn transcript(alloc: Global, text: &str) -> Result<String, AllocError> {
    let mut session = new_session(alloc);
    let mut answerer = ByRules {
        alloc,
        table: Published::new(alloc),
    };
    for line in text.split('\n') {
        if let Some(typed) = line.strip_prefix("> ") {
            write!(answerer.table.text, "{line}\n")?;
            let _reply = session.feed_line(typed.as_bytes(), &mut answerer);
        }
    }
    answerer.table.written?;
    unframed(alloc, answerer.table.text.as_str())
}

/// What is published where a key is asked for.
pub(crate) fn published_at(alloc: Global, key: Key) -> Result<String, AllocError>
    requires { IsTreated key }
{
    let mut answerer = ByRules {
        alloc,
        table: Published::new(alloc),
    };
    let _cell = answerer.cell(key)?;
    answerer.table.written?;
    unframed(alloc, answerer.table.text.as_str())
}
