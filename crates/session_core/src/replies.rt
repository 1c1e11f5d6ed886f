// The reply to a line.
ghost use Rattle.std.specs.Prelude.{◌≡◌, false, IfOk, IfErr, OnErr, OnOk, is_ok};
ghost use Rattle.session_core.specs.Answer.{told_reply, answer, is_unbuilt_command};
ghost use Rattle.session_core.specs.Asked.{AnswersAll, AsksKeys, is_settled};
ghost use Rattle.session_core.specs.Lines.{told_keys, keys_or_none, command_keys, told_line, answer_bytes, line_keys};
ghost use Rattle.session_core.specs.Telling.{Stops};
ghost use Rattle.session_core.specs.Settings.{state_of, answered, pair};

use crate::answerer::Answerer;
use crate::betti::betti_reply;
use crate::boundaries::boundary_reply;
use crate::express::express_reply;
use crate::homologies::homology_reply;
use crate::line_faults::LineFault;
use crate::parts::is_unbuilt;
use crate::settings::{Settings, change_field, listed_names, name_space};
use crate::stops::Stop;
use reply_text::{Refusal, Reply};
use script_lang::{Command, LineRefused, read_line};
use std::alloc::Global;

/// The reply to a line, and the names and field after it.
pub(crate) fn reply_to<A: Answerer>(
    alloc: Global,
    settings: &mut Settings,
    line: &[u8],
    answerer: &mut A,
) -> Result<Reply, LineFault>
    requires answerer { AnswersAll A.may_answer A.answers answerer.old }
    ensures reply { IfOk result (λ r. answer_bytes (state_of settings.old) line.now ≡ pair r (state_of settings.new)) }
    ensures kept { OnErr result (settings.new ≡ settings.old) }
    ensures memory { IfErr result (λ f. f ≡ LineFault.Memory) }
    ensures asked { AsksKeys A.answers (line_keys (state_of settings.old) line.now) answerer.old answerer.new (is_ok result) }
{
    match read_line(alloc, line) {
        Ok(Some(command)) => answer(alloc, settings, &command, answerer),
        Ok(None) => Ok(Reply::Empty),
        Err(LineRefused::Syntax(_)) => Ok(Reply::Refused(Refusal::Syntax)),
        Err(LineRefused::Memory) => Err(LineFault::Memory),
    }
}

// The reply to a command, a refusal if it has a fault.
fn answer<A: Answerer>(
    alloc: Global,
    settings: &mut Settings,
    command: &Command,
    answerer: &mut A,
) -> Result<Reply, LineFault>
    requires answerer { AnswersAll A.may_answer A.answers answerer.old }
    ensures reply { IfOk result (λ r. answer (state_of settings.old) command.now ≡ pair r (state_of settings.new)) }
    ensures kept { OnErr result (settings.new ≡ settings.old) }
    ensures memory { IfErr result (λ f. f ≡ LineFault.Memory) }
    ensures asked { AsksKeys A.answers (command_keys (state_of settings.old) command.now) answerer.old answerer.new (is_ok result) }
{
    if is_unbuilt_command(command) {
        return Ok(Reply::Refused(Refusal::NotBuilt));
    }
    match evaluate(alloc, settings, command, answerer) {
        Ok(reply) => Ok(reply),
        Err(Stop::Refused(refusal)) => Ok(Reply::Refused(refusal)),
        Err(Stop::Memory) => Err(LineFault::Memory),
    }
}

// Whether a command has a construction that is not built yet.
fn is_unbuilt_command(command: &Command) -> bool
    ensures { result ≡ is_unbuilt_command command.now }
{
    match command {
        Command::Field(_) => false,
        Command::Setf(_, e) => is_unbuilt(e),
        Command::Names => false,
        Command::Betti(e, _, _) => is_unbuilt(e),
        Command::Homology(e, _) => is_unbuilt(e),
        Command::Boundary(e, _, _) => is_unbuilt(e),
        Command::Express(e, _, _) => is_unbuilt(e),
    }
}

// The reply to a command without a fault, from left to right.
fn evaluate<A: Answerer>(
    alloc: Global,
    settings: &mut Settings,
    command: &Command,
    answerer: &mut A,
) -> Result<Reply, Stop>
    requires answerer { AnswersAll A.may_answer A.answers answerer.old }
    ensures reply { IfOk result (λ r. told_reply (state_of settings.old) command.now ≡ answered r (state_of settings.new)) }
    ensures stops { IfErr result (λ s. Stops s (told_reply (state_of settings.old) command.now)) }
    ensures kept { OnErr result (settings.new ≡ settings.old) }
    ensures asked { AsksKeys A.answers (keys_or_none (state_of settings.old) (told_keys (state_of settings.old) command.now)) answerer.old answerer.new (is_settled result) }
{
    match command {
        Command::Field(n) => change_field(settings, *n),
        Command::Setf(name, e) => name_space(alloc, settings, *name, e),
        Command::Names => listed_names(alloc, settings),
        Command::Betti(e, low, high) => betti_reply(alloc, settings, e, *low, *high, answerer),
        Command::Homology(e, n) => homology_reply(alloc, settings, e, *n, answerer),
        Command::Boundary(e, n, chain) => boundary_reply(alloc, settings, e, *n, chain),
        Command::Express(e, n, chain) => express_reply(alloc, settings, e, *n, chain, answerer),
    }
}
