// A space and a degree of a question.
ghost use Rattle.std.specs.Prelude.{◌≡◌, ◌≤◌, IfOk, IfErr};
ghost use Rattle.term_lang.specs.SpaceOf.{space_of};
ghost use Rattle.session_core.specs.Answer.{told};
ghost use Rattle.session_core.specs.Spots.{spot_of, told_spot};
ghost use Rattle.session_core.specs.Telling.{Stops};
ghost use Rattle.session_core.specs.Whole.{IsReady};

use crate::parts::{told_degree, told_space};
use crate::settings::Settings;
use crate::stops::Stop;
use script_lang::Expr;
use seqs::Arc;
use std::alloc::Global;
use term_lang::Term;

/// A space and a degree.
#[derive(Drop)]
pub struct Spot {
    pub term: Arc<Term>,
    pub degree: u32,
}

/// The space and the degree of a question.
pub(crate) fn told_spot(alloc: Global, settings: &Settings, e: &Expr, n: u64) -> Result<Spot, Stop>
    ensures told { IfOk result (λ x. told_spot settings.now.names e.now n ≡ told (spot_of x)) }
    ensures ready { IfOk result (λ x. IsReady (space_of x.term)) }
    ensures most { IfOk result (λ x. x.degree ≤ 16) }
    ensures stops { IfErr result (λ s. Stops s (told_spot settings.now.names e.now n)) }
{
    let term = told_space(alloc, &settings.names, e)?;
    let degree = told_degree(n)?;
    Ok(Spot { term, degree })
}
