// Reads a script piece by piece, and answers its lines.
ghost use Rattle.std.specs.Prelude.{◌≡◌, ◌-◌, ◌<◌, ◌≤◌, length, take, IfOk, IfSome, OnErr};
ghost use Rattle.port_io.specs.Ports.{Rose};
ghost use Rattle.session_core.specs.Sessions.{first_session};
ghost use Rattle.kernel_run.specs.Outcome.{OverPort};
ghost use Rattle.kernel_run.specs.Session.{ReadsBytes, ReadsEnd, ReadFails, WritesNothing};
ghost use Rattle.kernel_run.specs.Settled.{SettlesScript};
ghost use Rattle.kernel_run.specs.Forcing.{IsReady, IsKept};

use crate::answers::end_long;
use crate::by_engine::ByEngine;
use crate::lines::first_bytes;
use crate::open_line::OpenLine;
use crate::pieces::{answer_last, answer_piece};
use crate::{End, SessionReport};
use oracle_iface::{Memo, RuleSet};
use port_io::{Port, PortFault};
use session_core::Session;
use std::alloc::Global;
use std::sync::ledger::Ledger;

/// What a script may have.
const MOST_BYTES: usize = 16_777_216;

/// One more than a script may have.
const MOST_READ: usize = 16_777_217;

const BUFFER: usize = 4096;

/// Answers each line of the input, in a new session, as soon as its line feed was read.
pub(crate) fn answer_input<P: Port, R: RuleSet, M: Memo, L: Ledger>(
    alloc: Global,
    port: &mut P,
    session: &mut Session,
    answerer: &mut ByEngine<R, M, L>,
) -> SessionReport
    requires session { session.old ≡ first_session }
    requires ready { IsReady (R.treats answerer.old.engine.rules.now) (M.seat answerer.old.engine.memo.now) M.shard (M.fronts answerer.old.engine.memo.now) }
    ensures port { OverPort (P.state port.old) (P.state port.new) result }
    ensures kept { IsKept M.seat M.shard M.fronts M.origin answerer.old.engine.rules.now answerer.new.engine.rules.now
        answerer.old.engine.memo.ghost_name answerer.new.engine.memo.ghost_name
        answerer.old.engine.memo.now answerer.new.engine.memo.now answerer.old.steps.now answerer.new.steps.now }
    ensures settled { result.end ≡ End.Finished → IfSome (P.state port.old).left (SettlesScript (M.seat answerer.old.engine.memo.now) M.shard (M.fronts answerer.old.engine.memo.now) (M.fronts answerer.new.engine.memo.now)) }
{
    let mut report = SessionReport {
        replies: 0,
        errors: 0,
        end: End::Finished,
    };
    let mut line = OpenLine::new(alloc);
    let mut buf = [0; BUFFER];
    let mut read = 0;
    while read < MOST_READ {
        let room = BUFFER.min(MOST_READ - read);
        let Ok(count) = read_some(port, &mut buf[..room]) else {
            return SessionReport {
                end: End::ReadFault,
                ..report
            };
        };
        if count == 0 {
            return answer_last(alloc, port, session, answerer, &mut line, report);
        }
        let piece = part_to_answer(&buf[..count], read);
        report = answer_piece(alloc, port, session, answerer, &mut line, piece, report);
        if report.end != End::Finished {
            return report;
        }
        read += count;
    }
    end_long(port, report)
}

// The part of a piece whose lines are answered, where this many bytes stand before it.
fn part_to_answer(piece: &[u8], read: usize) -> &[u8]
    requires { read ≤ 16777216 }
    ensures { result.now ≡ take (16777216 - read) piece.now }
{
    first_bytes(piece, MOST_BYTES - read)
}

// One read, to the front of a buffer.
fn read_some<P: Port>(port: &mut P, buf: &mut [u8]) -> Result<usize, PortFault>
    requires { 0 < length buf.old }
    ensures bound { IfOk result (λ n. n ≤ length buf.old) }
    ensures some { IfOk result (λ n. 0 < n → ReadsBytes (P.state port.old) (P.state port.new) (take n buf.new)) }
    ensures none { IfOk result (λ n. n ≡ 0 → ReadsEnd (P.state port.old) (P.state port.new)) }
    ensures good { IfOk result (λ n. (P.state port.new).read_faults ≡ (P.state port.old).read_faults) }
    ensures fails { OnErr result (ReadFails (P.state port.old) (P.state port.new)) }
    ensures writes { WritesNothing (P.state port.old) (P.state port.new) }
    ensures len { length buf.new ≡ length buf.old }
{
    port.read(buf)
}
