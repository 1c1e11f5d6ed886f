// A space and two degrees of a question.
ghost use Rattle.std.specs.Prelude.{◌≡◌, ◌≤◌, IfOk, IfErr};
ghost use Rattle.term_lang.specs.SpaceOf.{space_of};
ghost use Rattle.session_core.specs.Answer.{told};
ghost use Rattle.session_core.specs.Ranges.{range_of, told_range};
ghost use Rattle.session_core.specs.Telling.{Stops};
ghost use Rattle.session_core.specs.Whole.{IsReady};

use crate::parts::{told_degree, told_space};
use crate::settings::Settings;
use crate::stops::Stop;
use script_lang::Expr;
use seqs::Arc;
use std::alloc::Global;
use term_lang::Term;

/// A space and the degrees from one to another.
#[derive(Drop)]
pub struct Range {
    pub term: Arc<Term>,
    pub low: u32,
    pub high: u32,
}

/// The space and the degrees of a question.
pub(crate) fn told_range(
    alloc: Global,
    settings: &Settings,
    e: &Expr,
    low: u64,
    high: u64,
) -> Result<Range, Stop>
    ensures told { IfOk result (λ x. told_range settings.now.names e.now low high ≡ told (range_of x)) }
    ensures ready { IfOk result (λ x. IsReady (space_of x.term)) }
    ensures low { IfOk result (λ x. x.low ≤ 16) }
    ensures high { IfOk result (λ x. x.high ≤ 16) }
    ensures stops { IfErr result (λ s. Stops s (told_range settings.now.names e.now low high)) }
{
    let term = told_space(alloc, &settings.names, e)?;
    let low = told_degree(low)?;
    let high = told_degree(high)?;
    Ok(Range { term, low, high })
}
