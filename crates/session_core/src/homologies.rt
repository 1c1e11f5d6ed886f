// The command that asks for homology.
ghost use Rattle.std.specs.Prelude.{◌≡◌, ◌≤◌, [], ◌∷◌, true, IfOk, IfErr, is_ok};
ghost use Rattle.term_lang.specs.SpaceOf.{space_of};
ghost use Rattle.script_lang.specs.declared.commands.Command.TheVariants as commands;
ghost use Rattle.reply_text.specs.declared.replies.Reply.TheVariants as replies;
ghost use Rattle.session_core.specs.Answer.{told, ◌>>◌, told_reply};
ghost use Rattle.session_core.specs.Asked.{AnswersAll, AsksKeys, is_settled};
ghost use Rattle.session_core.specs.Lines.{told_keys, keys_or_none};
ghost use Rattle.session_core.specs.Telling.{Stops, cycles_key, told_cycles, told_homology, refused_by, is_many};
ghost use Rattle.session_core.specs.Settings.{state_of, answered};
ghost use Rattle.session_core.specs.Whole.{IsReady};

use crate::answerer::Answerer;
use crate::settings::Settings;
use crate::spots::{Spot, told_spot};
use crate::stops::Stop;
use fp_field::Prime;
use oracle_iface::{Body, CellValue, ChainList, Key, Op, Outcome, Over, Place, copy_over};
use reply_text::{Refusal, Reply};
use script_lang::Expr;
use seqs::Arc;
use std::alloc::{AllocError, Global};
use term_lang::Term;

/// The listed cycles of a degree.
pub(crate) fn homology_reply<A: Answerer>(
    alloc: Global,
    settings: &Settings,
    e: &Expr,
    n: u64,
    answerer: &mut A,
) -> Result<Reply, Stop>
    requires answerer { AnswersAll A.may_answer A.answers answerer.old }
    ensures reply { IfOk result (λ r. told_reply (state_of settings.now) (commands.Homology e.now n) ≡ answered r (state_of settings.now)) }
    ensures stops { IfErr result (λ s. Stops s (told_reply (state_of settings.now) (commands.Homology e.now n))) }
    ensures asked { AsksKeys A.answers (keys_or_none (state_of settings.now) (told_keys (state_of settings.now) (commands.Homology e.now n))) answerer.old answerer.new (is_settled result) }
{
    match told_spot(alloc, settings, e, n) {
        Ok(spot) => listed_cycles(alloc, settings.prime, spot, answerer),
        Err(stop) => Err(stop),
    }
}

// The reply with the listed cycles of a space in a degree.
fn listed_cycles<A: Answerer>(
    alloc: Global,
    p: Prime,
    spot: Spot,
    answerer: &mut A,
) -> Result<Reply, Stop>
    requires ready { IsReady (space_of spot.term) }
    requires degree { spot.degree ≤ 16 }
    requires answerer { AnswersAll A.may_answer A.answers answerer.old }
    ensures told { IfOk result (λ r. told_homology p spot.term spot.degree ≡ told r) }
    ensures stops { IfErr result (λ s. Stops s (told_homology p spot.term spot.degree)) }
    ensures asked { AsksKeys A.answers (cycles_key p spot.term spot.degree ∷ []) answerer.old answerer.new (is_settled result) }
{
    let cell = ask_cycles(p, &spot.term, spot.degree, answerer)?;
    let cycles = cycles_in(alloc, spot.degree, cell.get())?;
    Ok(Reply::Homology(spot.term, cycles))
}

// The cell of the listed cycles of a space in a degree.
fn ask_cycles<A: Answerer>(
    p: Prime,
    term: &Arc<Term>,
    degree: u32,
    answerer: &mut A,
) -> Result<Arc<CellValue>, AllocError>
    requires ready { IsReady (space_of term.now) }
    requires degree { degree ≤ 16 }
    requires answerer { AnswersAll A.may_answer A.answers answerer.old }
    ensures key { IfOk result (λ v. v.key ≡ cycles_key p term.now degree) }
    ensures asked { AsksKeys A.answers (cycles_key p term.now degree ∷ []) answerer.old answerer.new (is_ok result) }
{
    let term = term.clone()?;
    answerer.cell(Key {
        op: Op::Cycles,
        prime: p,
        place: Place::Degree(degree),
        term,
    })
}

// The cycles of degree n that a cell of the table holds.
fn cycles_in(alloc: Global, n: u32, cell: &CellValue) -> Result<ChainList, Stop>
    requires { cell.now.key ≡ cycles_key cell.now.key.prime cell.now.key.term n }
    ensures told { IfOk result (λ zs. told_cycles cell.now.key.prime cell.now.key.term n ≡ told zs) }
    ensures stops { IfErr result (λ s. Stops s (told_cycles cell.now.key.prime cell.now.key.term n)) }
{
    match &cell.outcome {
        Outcome::Over(over) => Err(Stop::Refused(refused_by(copy_over(alloc, over)?))),
        Outcome::Value(body) => Ok(copy_chains(alloc, chains_in(body))?),
    }
}

// The chains of a value that is a list of chains.
fn chains_in(body: &Body) -> &ChainList
    requires { is_many body.now ≡ true }
    ensures { body.now ≡ Body.Many result.now }
{
    match body {
        Body::Cells(_) => unreachable!(),
        Body::Small(_) => unreachable!(),
        Body::Big(_) => unreachable!(),
        Body::Many(chains) => chains,
    }
}

/// The refusal of a line by a key past a limit.
pub(crate) fn refused_by(over: Over) -> Refusal
    ensures { result ≡ refused_by over }
{
    Refusal::Over(Some(over.key), over.kind, over.size)
}

// A copy of a list of chains.
fn copy_chains(alloc: Global, chains: &ChainList) -> Result<ChainList, AllocError>
    ensures { IfOk result (λ copy. copy ≡ chains.now) }
{
    let mut copy = ChainList::new(alloc);
    for chain in chains.as_slice() {
        copy.push(chain.clone()?)?;
    }
    Ok(copy)
}
