// A cycle of a space that a line asks about.
ghost use Rattle.std.specs.Prelude.{◌≡◌, ◌≤◌, IfOk, IfErr};
ghost use Rattle.term_lang.specs.SpaceOf.{space_of};
ghost use Rattle.session_core.specs.Posed.{told_posed, IsPosed};
ghost use Rattle.session_core.specs.Settings.{state_of};
ghost use Rattle.session_core.specs.Telling.{Stops};
ghost use Rattle.session_core.specs.Whole.{IsReady};

use crate::chains::{check_boundary, told_chain};
use crate::settings::Settings;
use crate::spots::{Spot, told_spot};
use crate::stops::Stop;
use chain_core::Chain;
use script_lang::{ChainText, Expr};
use space_faces::boundary;
use std::alloc::Global;
use term_lang::Cell;

/// A cycle of a space in a degree.
#[derive(Drop)]
pub struct Posed {
    pub spot: Spot,
    pub cycle: Chain<Cell>,
}

/// The space, the degree and the cycle of a question.
pub(crate) fn told_posed(
    alloc: Global,
    settings: &Settings,
    e: &Expr,
    n: u64,
    text: &ChainText,
) -> Result<Posed, Stop>
    ensures told { IfOk result (λ x. IsPosed (state_of settings.now) e.now n text.now x.spot.term x.spot.degree x.cycle) }
    ensures ready { IfOk result (λ x. IsReady (space_of x.spot.term)) }
    ensures most { IfOk result (λ x. x.spot.degree ≤ 16) }
    ensures stops { IfErr result (λ s. Stops s (told_posed (state_of settings.now) e.now n text.now)) }
{
    let spot = told_spot(alloc, settings, e, n)?;
    let cycle = told_chain(alloc, settings.prime, spot.term.get(), spot.degree, text)?;
    let d = boundary(alloc, spot.term.get(), &cycle)?;
    check_boundary(alloc, &spot.term, &d)?;
    Ok(Posed { spot, cycle })
}
