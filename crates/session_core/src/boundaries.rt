// The command that asks for a boundary.
ghost use Rattle.std.specs.Prelude.{◌≡◌, IfOk, IfErr};
ghost use Rattle.script_lang.specs.declared.commands.Command.TheVariants as commands;
ghost use Rattle.session_core.specs.Answer.{told_reply};
ghost use Rattle.session_core.specs.Telling.{Stops};
ghost use Rattle.session_core.specs.Settings.{state_of, answered};

use crate::chains::{told_chain, within_limits};
use crate::parts::{told_degree, told_space};
use crate::settings::Settings;
use crate::stops::Stop;
use reply_text::Reply;
use script_lang::{ChainText, Expr};
use space_faces::boundary;
use std::alloc::Global;

/// The boundary of a chain.
pub(crate) fn boundary_reply(
    alloc: Global,
    settings: &Settings,
    e: &Expr,
    n: u64,
    text: &ChainText,
) -> Result<Reply, Stop>
    ensures reply { IfOk result (λ r. told_reply (state_of settings.now) (commands.Boundary e.now n text.now) ≡ answered r (state_of settings.now)) }
    ensures stops { IfErr result (λ s. Stops s (told_reply (state_of settings.now) (commands.Boundary e.now n text.now))) }
{
    let term = told_space(alloc, &settings.names, e)?;
    let degree = told_degree(n)?;
    let chain = told_chain(alloc, settings.prime, term.get(), degree, text)?;
    let printed = within_limits(boundary(alloc, term.get(), &chain)?)?;
    Ok(Reply::Boundary(term, printed))
}
