// The command that asks for the parts of a cycle.
ghost use Rattle.std.specs.Prelude.{◌≡◌, ◌≤◌, IfOk, IfErr, is_ok};
ghost use Rattle.fp_field.specs.Field.{number};
ghost use Rattle.term_lang.specs.SpaceOf.{space_of};
ghost use Rattle.script_lang.specs.declared.commands.Command.TheVariants as commands;
ghost use Rattle.space_faces.specs.Boundaries.{graded_chain};
ghost use Rattle.session_core.specs.Answer.{told, told_value, told_reply};
ghost use Rattle.session_core.specs.Asked.{AnswersAll, AsksKeys, is_settled};
ghost use Rattle.session_core.specs.Expressing.{AreParts, keys_of_parts, told_express, within_parts};
ghost use Rattle.session_core.specs.Lines.{told_keys, keys_or_none};
ghost use Rattle.session_core.specs.Posed.{IsCycleOf};
ghost use Rattle.session_core.specs.Questions.{expressed};
ghost use Rattle.session_core.specs.Settings.{state_of, answered};
ghost use Rattle.session_core.specs.Telling.{ComesTo, Stops};
ghost use Rattle.session_core.specs.Whole.{IsReady};

use crate::answered::Answered;
use crate::answerer::Answerer;
use crate::asker::Asker;
use crate::chains::within_limits;
use crate::homologies::refused_by;
use crate::parts_of_cycles::{Expressed, parts_by_asking};
use crate::posed::{Posed, told_posed};
use crate::settings::Settings;
use crate::stops::Stop;
use fp_field::Prime;
use reply_text::Reply;
use script_lang::{ChainText, Expr};
use seqs::Arc;
use std::alloc::{AllocError, Global};
use term_lang::Term;

/// The class of a cycle over the listed ones, and a chain whose boundary is the rest.
pub(crate) fn express_reply<A: Answerer>(
    alloc: Global,
    settings: &Settings,
    e: &Expr,
    n: u64,
    text: &ChainText,
    answerer: &mut A,
) -> Result<Reply, Stop>
    requires answerer { AnswersAll A.may_answer A.answers answerer.old }
    ensures reply { IfOk result (λ r. told_reply (state_of settings.now) (commands.Express e.now n text.now) ≡ answered r (state_of settings.now)) }
    ensures stops { IfErr result (λ s. Stops s (told_reply (state_of settings.now) (commands.Express e.now n text.now))) }
    ensures asked { AsksKeys A.answers (keys_or_none (state_of settings.now) (told_keys (state_of settings.now) (commands.Express e.now n text.now))) answerer.old answerer.new (is_settled result) }
{
    match told_posed(alloc, settings, e, n, text) {
        Ok(posed) => parts_reply(alloc, settings.prime, posed, answerer),
        Err(stop) => Err(stop),
    }
}

// The reply with the parts of a cycle.
fn parts_reply<A: Answerer>(
    alloc: Global,
    p: Prime,
    posed: Posed,
    answerer: &mut A,
) -> Result<Reply, Stop>
    requires ready { IsReady (space_of posed.spot.term) }
    requires degree { posed.spot.degree ≤ 16 }
    requires cycle { IsCycleOf p (space_of posed.spot.term) posed.spot.degree posed.cycle }
    requires answerer { AnswersAll A.may_answer A.answers answerer.old }
    ensures told { IfOk result (λ r. told_express p posed.spot.term posed.spot.degree (graded_chain (space_of posed.spot.term) posed.cycle.terms) ≡ told r) }
    ensures stops { IfErr result (λ s. Stops s (told_express p posed.spot.term posed.spot.degree (graded_chain (space_of posed.spot.term) posed.cycle.terms))) }
    ensures asked { AsksKeys A.answers (keys_of_parts p posed.spot.term posed.spot.degree (graded_chain (space_of posed.spot.term) posed.cycle.terms)) answerer.old answerer.new (is_settled result) }
{
    match ask_parts(alloc, p, &posed, answerer) {
        Ok(Answered::Told(parts)) => printed_parts(posed.spot.term, parts),
        Ok(Answered::Over(over)) => Err(Stop::Refused(refused_by(over))),
        Err(_) => Err(Stop::Memory),
    }
}

// The parts of a cycle, by asking the answerer.
fn ask_parts<A: Answerer>(
    alloc: Global,
    p: Prime,
    posed: &Posed,
    answerer: &mut A,
) -> Result<Answered<Expressed>, AllocError>
    requires ready { IsReady (space_of posed.now.spot.term) }
    requires degree { posed.now.spot.degree ≤ 16 }
    requires cycle { IsCycleOf p (space_of posed.now.spot.term) posed.now.spot.degree posed.now.cycle }
    requires answerer { AnswersAll A.may_answer A.answers answerer.old }
    ensures answer { let X = space_of posed.now.spot.term in IfOk result (λ a. ComesTo (AreParts p X) (told_value p posed.now.spot.term posed.now.spot.degree (expressed (number p) X posed.now.spot.degree (graded_chain X posed.now.cycle.terms))) a) }
    ensures asked { AsksKeys A.answers (keys_of_parts p posed.now.spot.term posed.now.spot.degree (graded_chain (space_of posed.now.spot.term) posed.now.cycle.terms)) answerer.old answerer.new (is_ok result) }
{
    let mut asker = Asker { answerer };
    parts_by_asking(
        alloc,
        p,
        &posed.spot.term,
        posed.spot.degree,
        &posed.cycle,
        &mut asker,
    )
}

// The reply with parts that are known, unless the chain is past a limit.
fn printed_parts(term: Arc<Term>, parts: Expressed) -> Result<Reply, Stop>
    ensures told { IfOk result (λ r. within_parts term parts ≡ told r) }
    ensures stops { IfErr result (λ s. Stops s (within_parts term parts)) }
{
    let chain = within_limits(parts.rest)?;
    Ok(Reply::Express(term, parts.class, chain))
}
