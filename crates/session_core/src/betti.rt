// The command that asks for Betti numbers.
ghost use Rattle.std.specs.Prelude.{◌≡◌, ◌≤◌, IfOk, IfErr, is_ok};
ghost use Rattle.fp_field.specs.Field.{number};
ghost use Rattle.term_lang.specs.SpaceOf.{space_of};
ghost use Rattle.script_lang.specs.declared.commands.Command.TheVariants as commands;
ghost use Rattle.session_core.specs.Answer.{told, told_value, told_reply};
ghost use Rattle.session_core.specs.Asked.{AnswersAll, AsksKeys, is_settled};
ghost use Rattle.session_core.specs.Lines.{keys_asked, told_keys, keys_or_none};
ghost use Rattle.session_core.specs.Questions.{dimensions};
ghost use Rattle.session_core.specs.Settings.{state_of, answered};
ghost use Rattle.session_core.specs.Telling.{Comes, Stops, told_betti};
ghost use Rattle.session_core.specs.Whole.{IsReady};

use crate::answered::Answered;
use crate::answerer::Answerer;
use crate::asker::Asker;
use crate::dimensions::dimensions_by_asking;
use crate::homologies::refused_by;
use crate::ranges::{Range, told_range};
use crate::settings::Settings;
use crate::stops::Stop;
use fp_field::Prime;
use reply_text::{NumberList, Reply};
use script_lang::Expr;
use std::alloc::{AllocError, Global};

/// The dimensions of homology from one degree to another.
pub(crate) fn betti_reply<A: Answerer>(
    alloc: Global,
    settings: &Settings,
    e: &Expr,
    low: u64,
    high: u64,
    answerer: &mut A,
) -> Result<Reply, Stop>
    requires answerer { AnswersAll A.may_answer A.answers answerer.old }
    ensures reply { IfOk result (λ r. told_reply (state_of settings.now) (commands.Betti e.now low high) ≡ answered r (state_of settings.now)) }
    ensures stops { IfErr result (λ s. Stops s (told_reply (state_of settings.now) (commands.Betti e.now low high))) }
    ensures asked { AsksKeys A.answers (keys_or_none (state_of settings.now) (told_keys (state_of settings.now) (commands.Betti e.now low high))) answerer.old answerer.new (is_settled result) }
{
    match told_range(alloc, settings, e, low, high) {
        Ok(range) => listed_numbers(alloc, settings.prime, &range, answerer),
        Err(stop) => Err(stop),
    }
}

// The reply with the dimensions of a space in a range of degrees.
fn listed_numbers<A: Answerer>(
    alloc: Global,
    p: Prime,
    range: &Range,
    answerer: &mut A,
) -> Result<Reply, Stop>
    requires ready { IsReady (space_of range.now.term) }
    requires low { range.now.low ≤ 16 }
    requires high { range.now.high ≤ 16 }
    requires answerer { AnswersAll A.may_answer A.answers answerer.old }
    ensures told { IfOk result (λ r. told_betti p range.now.term range.now.low range.now.high ≡ told r) }
    ensures stops { IfErr result (λ s. Stops s (told_betti p range.now.term range.now.low range.now.high)) }
    ensures asked { AsksKeys A.answers (keys_asked p (dimensions (number p) (space_of range.now.term) range.now.low range.now.high)) answerer.old answerer.new (is_settled result) }
{
    match ask_dimensions(alloc, p, range, answerer) {
        Ok(Answered::Told(numbers)) => Ok(Reply::Betti(numbers)),
        Ok(Answered::Over(over)) => Err(Stop::Refused(refused_by(over))),
        Err(_) => Err(Stop::Memory),
    }
}

// The dimensions of a space in a range of degrees, by asking the answerer.
fn ask_dimensions<A: Answerer>(
    alloc: Global,
    p: Prime,
    range: &Range,
    answerer: &mut A,
) -> Result<Answered<NumberList>, AllocError>
    requires ready { IsReady (space_of range.now.term) }
    requires low { range.now.low ≤ 16 }
    requires high { range.now.high ≤ 16 }
    requires answerer { AnswersAll A.may_answer A.answers answerer.old }
    ensures answer { IfOk result (λ a. Comes (told_value p range.now.term 0 (dimensions (number p) (space_of range.now.term) range.now.low range.now.high)) a) }
    ensures asked { AsksKeys A.answers (keys_asked p (dimensions (number p) (space_of range.now.term) range.now.low range.now.high)) answerer.old answerer.new (is_ok result) }
{
    let mut asker = Asker { answerer };
    dimensions_by_asking(alloc, p, &range.term, range.low, range.high, &mut asker)
}
