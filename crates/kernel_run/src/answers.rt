// Answers single lines.
ghost use Rattle.std.specs.Prelude.{◌≡◌, ◌≢◌, ◌<◌, false, IfOk, OnOk};
ghost use Rattle.force_engine.specs.Fronts.{Between};
ghost use Rattle.port_io.specs.Ports.{Rose};
ghost use Rattle.kernel_run.specs.Fresh.{reply_to, text_to};
ghost use Rattle.kernel_run.specs.Progress.{Answered, IsAfter, EndedLong};
ghost use Rattle.kernel_run.specs.Settled.{AreSettled, keys_at};
ghost use Rattle.kernel_run.specs.Forcing.{IsReady, IsKept};

use crate::by_engine::ByEngine;
use crate::write::write_text;
use crate::{End, SessionReport};
use oracle_iface::{Memo, RuleSet};
use port_io::Port;
use reply_text::{ByteList, Reply};
use session_core::{LineFault, Session};
use std::alloc::Global;
use std::sync::ledger::Ledger;

const TOO_LONG: &[u8] = b"error over script 16777217\n";

/// Answers one line: the reply is written and counted.
pub(crate) fn answer_line<P: Port, R: RuleSet, M: Memo, L: Ledger>(
    alloc: Global,
    port: &mut P,
    session: &mut Session,
    answerer: &mut ByEngine<R, M, L>,
    line: &[u8],
    report: SessionReport,
) -> SessionReport
    requires replies { report.replies < 16777217 }
    requires errors { report.errors < 16777217 }
    requires end { report.end ≡ End.Finished }
    requires session { session.old.is_ended ≡ false }
    requires ready { IsReady (R.treats answerer.old.engine.rules.now) (M.seat answerer.old.engine.memo.now) M.shard (M.fronts answerer.old.engine.memo.now) }
    ensures answer { Answered (P.state port.old) (P.state port.new) (text_to session.old.state line.now) report result }
    ensures session { result.end ≡ End.Finished → IsAfter session.old line.now session.new }
    ensures kept { IsKept M.seat M.shard M.fronts M.origin answerer.old.engine.rules.now answerer.new.engine.rules.now
        answerer.old.engine.memo.ghost_name answerer.new.engine.memo.ghost_name
        answerer.old.engine.memo.now answerer.new.engine.memo.now answerer.old.steps.now answerer.new.steps.now }
    ensures settled { result.end ≡ End.Finished → (Between (AreSettled (M.seat answerer.old.engine.memo.now) M.shard (keys_at session.old.state line.now)) (M.fronts answerer.old.engine.memo.now) (M.fronts answerer.new.engine.memo.now)) }
{
    match line_text(alloc, session, answerer, line) {
        Ok(text) => write_counted(port, text.as_slice(), report),
        Err(_) => SessionReport {
            end: End::Memory,
            ..report
        },
    }
}

// Writes the text of a reply, and counts it.
fn write_counted<P: Port>(port: &mut P, text: &[u8], report: SessionReport) -> SessionReport
    requires replies { report.replies < 16777217 }
    requires errors { report.errors < 16777217 }
    requires end { report.end ≡ End.Finished }
    ensures { Answered (P.state port.old) (P.state port.new) text.now report result }
{
    match write_text(port, text) {
        Ok(()) => SessionReport {
            replies: report.replies + u64::from(!text.is_empty()),
            errors: report.errors + u64::from(text.starts_with(b"error")),
            end: End::Finished,
        },
        Err(_) => SessionReport {
            end: End::WriteFault,
            ..report
        },
    }
}

// The text of the reply to one line.
fn line_text<R: RuleSet, M: Memo, L: Ledger>(
    alloc: Global,
    session: &mut Session,
    answerer: &mut ByEngine<R, M, L>,
    line: &[u8],
) -> Result<ByteList, LineFault>
    requires session { session.old.is_ended ≡ false }
    requires ready { IsReady (R.treats answerer.old.engine.rules.now) (M.seat answerer.old.engine.memo.now) M.shard (M.fronts answerer.old.engine.memo.now) }
    ensures text { IfOk result (λ text. text ≡ text_to session.old.state line.now) }
    ensures session { OnOk result (IsAfter session.old line.now session.new) }
    ensures kept { IsKept M.seat M.shard M.fronts M.origin answerer.old.engine.rules.now answerer.new.engine.rules.now
        answerer.old.engine.memo.ghost_name answerer.new.engine.memo.ghost_name
        answerer.old.engine.memo.now answerer.new.engine.memo.now answerer.old.steps.now answerer.new.steps.now }
    ensures settled { OnOk result (Between (AreSettled (M.seat answerer.old.engine.memo.now) M.shard (keys_at session.old.state line.now)) (M.fronts answerer.old.engine.memo.now) (M.fronts answerer.new.engine.memo.now)) }
{
    let reply = line_reply(session, answerer, line)?;
    match reply_text::reply_text(alloc, &reply) {
        Ok(text) => Ok(text),
        Err(_) => Err(LineFault::Memory),
    }
}

// The reply to one line.
fn line_reply<R: RuleSet, M: Memo, L: Ledger>(
    session: &mut Session,
    answerer: &mut ByEngine<R, M, L>,
    line: &[u8],
) -> Result<Reply, LineFault>
    requires session { session.old.is_ended ≡ false }
    requires ready { IsReady (R.treats answerer.old.engine.rules.now) (M.seat answerer.old.engine.memo.now) M.shard (M.fronts answerer.old.engine.memo.now) }
    ensures reply { IfOk result (λ reply. reply ≡ reply_to session.old.state line.now) }
    ensures session { OnOk result (IsAfter session.old line.now session.new) }
    ensures kept { IsKept M.seat M.shard M.fronts M.origin answerer.old.engine.rules.now answerer.new.engine.rules.now
        answerer.old.engine.memo.ghost_name answerer.new.engine.memo.ghost_name
        answerer.old.engine.memo.now answerer.new.engine.memo.now answerer.old.steps.now answerer.new.steps.now }
    ensures settled { OnOk result (Between (AreSettled (M.seat answerer.old.engine.memo.now) M.shard (keys_at session.old.state line.now)) (M.fronts answerer.old.engine.memo.now) (M.fronts answerer.new.engine.memo.now)) }
{
    session.feed_line(line, answerer)
}

/// Writes that the script is too long.
pub(crate) fn end_long<P: Port>(port: &mut P, report: SessionReport) -> SessionReport
    ensures { EndedLong (P.state port.old) (P.state port.new) report result }
{
    match write_text(port, TOO_LONG) {
        Ok(()) => SessionReport {
            end: End::Long,
            ..report
        },
        Err(_) => SessionReport {
            end: End::WriteFault,
            ..report
        },
    }
}
