// Answers the lines that a piece of a script closes.
ghost use Rattle.std.specs.Prelude.{◌≡◌, ◌+◌, ◌<◌, ◌≤◌, ◌++◌, [], false, length, OnOk};
ghost use Rattle.force_engine.specs.Fronts.{Between};
ghost use Rattle.kernel_run.specs.Fresh.{text_to, texts_from};
ghost use Rattle.kernel_run.specs.Pieces.{closed_lines, open_line, last_line, kept};
ghost use Rattle.kernel_run.specs.Progress.{Answered, AnswersBy, IsAfter, IsAfterLines};
ghost use Rattle.kernel_run.specs.Session.{ReadsNothing};
ghost use Rattle.kernel_run.specs.Settled.{AreSettled, keys_at, keys_from};
ghost use Rattle.kernel_run.specs.Forcing.{IsReady, IsKept};

use crate::answers::answer_line;
use crate::by_engine::ByEngine;
use crate::lines::next_line;
use crate::open_line::OpenLine;
use crate::{End, SessionReport};
use oracle_iface::{Memo, RuleSet};
use port_io::Port;
use session_core::Session;
use std::alloc::Global;
use std::sync::ledger::Ledger;

/// Answers the lines that a piece closes, one after the other, and keeps what it leaves open.
pub(crate) fn answer_piece<P: Port, R: RuleSet, M: Memo, L: Ledger>(
    alloc: Global,
    port: &mut P,
    session: &mut Session,
    answerer: &mut ByEngine<R, M, L>,
    line: &mut OpenLine,
    piece: &[u8],
    report: SessionReport,
) -> SessionReport
    requires replies { report.replies + length piece.now ≤ 16777217 }
    requires errors { report.errors + length piece.now ≤ 16777217 }
    requires end { report.end ≡ End.Finished }
    requires session { session.old.is_ended ≡ false }
    requires ready { IsReady (R.treats answerer.old.engine.rules.now) (M.seat answerer.old.engine.memo.now) M.shard (M.fronts answerer.old.engine.memo.now) }
    ensures answer { AnswersBy result.end (P.state port.old) (P.state port.new) (texts_from session.old.state (closed_lines line.old piece.now)) report result }
    ensures reads { ReadsNothing (P.state port.old) (P.state port.new) }
    ensures replies { result.replies ≤ report.replies + length piece.now }
    ensures errors { result.errors ≤ report.errors + length piece.now }
    ensures session { result.end ≡ End.Finished → IsAfterLines session.old (closed_lines line.old piece.now) session.new }
    ensures line { result.end ≡ End.Finished → line.new ≡ kept (open_line line.old piece.now) }
    ensures kept { IsKept M.seat M.shard M.fronts M.origin answerer.old.engine.rules.now answerer.new.engine.rules.now
        answerer.old.engine.memo.ghost_name answerer.new.engine.memo.ghost_name
        answerer.old.engine.memo.now answerer.new.engine.memo.now answerer.old.steps.now answerer.new.steps.now }
    ensures settled { result.end ≡ End.Finished → (Between (AreSettled (M.seat answerer.old.engine.memo.now) M.shard (keys_from session.old.state (closed_lines line.old piece.now))) (M.fronts answerer.old.engine.memo.now) (M.fronts answerer.new.engine.memo.now)) }
{
    let mut report = report;
    let mut rest = piece;
    while let Some((front, after)) = next_line(rest) {
        report = close_line(alloc, port, session, answerer, line, front, report);
        if report.end != End::Finished {
            return report;
        }
        rest = after;
    }
    match line.push(rest) {
        Ok(()) => report,
        Err(_) => SessionReport {
            end: End::Memory,
            ..report
        },
    }
}

/// Answers what is open at the end of a script, unless nothing is.
pub(crate) fn answer_last<P: Port, R: RuleSet, M: Memo, L: Ledger>(
    alloc: Global,
    port: &mut P,
    session: &mut Session,
    answerer: &mut ByEngine<R, M, L>,
    line: &mut OpenLine,
    report: SessionReport,
) -> SessionReport
    requires replies { report.replies < 16777217 }
    requires errors { report.errors < 16777217 }
    requires end { report.end ≡ End.Finished }
    requires session { session.old.is_ended ≡ false }
    requires ready { IsReady (R.treats answerer.old.engine.rules.now) (M.seat answerer.old.engine.memo.now) M.shard (M.fronts answerer.old.engine.memo.now) }
    ensures answer { AnswersBy result.end (P.state port.old) (P.state port.new) (texts_from session.old.state (last_line line.old)) report result }
    ensures reads { ReadsNothing (P.state port.old) (P.state port.new) }
    ensures kept { IsKept M.seat M.shard M.fronts M.origin answerer.old.engine.rules.now answerer.new.engine.rules.now
        answerer.old.engine.memo.ghost_name answerer.new.engine.memo.ghost_name
        answerer.old.engine.memo.now answerer.new.engine.memo.now answerer.old.steps.now answerer.new.steps.now }
    ensures settled { result.end ≡ End.Finished → (Between (AreSettled (M.seat answerer.old.engine.memo.now) M.shard (keys_from session.old.state (last_line line.old))) (M.fronts answerer.old.engine.memo.now) (M.fronts answerer.new.engine.memo.now)) }
{
    if line.bytes().is_empty() {
        report
    } else {
        close_line(alloc, port, session, answerer, line, b"", report)
    }
}

// Answers the open line, whose last bytes are these, and begins the next one.
fn close_line<P: Port, R: RuleSet, M: Memo, L: Ledger>(
    alloc: Global,
    port: &mut P,
    session: &mut Session,
    answerer: &mut ByEngine<R, M, L>,
    line: &mut OpenLine,
    last: &[u8],
    report: SessionReport,
) -> SessionReport
    requires replies { report.replies < 16777217 }
    requires errors { report.errors < 16777217 }
    requires end { report.end ≡ End.Finished }
    requires session { session.old.is_ended ≡ false }
    requires ready { IsReady (R.treats answerer.old.engine.rules.now) (M.seat answerer.old.engine.memo.now) M.shard (M.fronts answerer.old.engine.memo.now) }
    ensures answer { Answered (P.state port.old) (P.state port.new) (text_to session.old.state (line.old ++ last.now)) report result }
    ensures session { result.end ≡ End.Finished → IsAfter session.old (line.old ++ last.now) session.new }
    ensures line { result.end ≡ End.Finished → line.new ≡ [] }
    ensures kept { IsKept M.seat M.shard M.fronts M.origin answerer.old.engine.rules.now answerer.new.engine.rules.now
        answerer.old.engine.memo.ghost_name answerer.new.engine.memo.ghost_name
        answerer.old.engine.memo.now answerer.new.engine.memo.now answerer.old.steps.now answerer.new.steps.now }
    ensures settled { result.end ≡ End.Finished → (Between (AreSettled (M.seat answerer.old.engine.memo.now) M.shard (keys_at session.old.state (line.old ++ last.now))) (M.fronts answerer.old.engine.memo.now) (M.fronts answerer.new.engine.memo.now)) }
{
    match line.push(last) {
        Ok(()) => {}
        Err(_) => {
            return SessionReport {
                end: End::Memory,
                ..report
            };
        }
    }
    let report = answer_line(alloc, port, session, answerer, line.bytes(), report);
    line.clear();
    report
}
