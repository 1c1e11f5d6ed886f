// One session over a port.
ghost use Rattle.std.specs.Prelude.{◌≡◌, ◌≢◌, ◌≤◌, ◌<◌, IfSome};
ghost use Rattle.std.specs.Io.KnownBytes.{IsAtEnd};
ghost use Rattle.force_engine.specs.Fronts.{IfTold, Between};
ghost use Rattle.force_engine.specs.Ways.{Went};
ghost use Rattle.port_io.specs.Ports.{Rose, raised};
ghost use Rattle.kernel_run.specs.declared.report.End.{End};
ghost use Rattle.kernel_run.specs.Outcome.{Outcome, HasLengthFor, AnswersRead, ReadsTooMuch, OverPort};
ghost use Rattle.kernel_run.specs.Truth.{AreHomologyLists};
ghost use Rattle.kernel_run.specs.Settled.{HoldsNone, SettlesScript};

use crate::SessionReport;
use crate::by_engine::ByEngine;
use crate::input::answer_input;
use force_engine::{Steps, new_engine};
use oracle_iface::Memo;
use port_io::Port;
use rule_book::Rules;
use session_core::new_session;
use std::alloc::Global;
use std::marker::Brand;
use std::sync::ledger::{Blank, Ledger};

/// One whole session over a port and a memo, whose seat may hold no key there, where the memo tells its fronts: it reads
/// the script, and writes the reply to each line as soon as its line feed was read. It ends with a fault where a read or a
/// write failed, with `Memory` where memory was wanting, with `Long` where more than 16,777,216 bytes were read, and else
/// with `Finished`.
///
/// Where the port tells its bytes, the output grew by what a fresh kernel writes for the script, or by a front of it: after
/// a read fault by the replies to exactly the lines whose line feed was read, and after a write fault by less than all.
///
/// The cells of keys are forced over the memo. At each end its fronts, where they are told, grew by legal entries, each key
/// that this seat published and whose outcome is a value has all that it needs settled, and the seat holds no key. After
/// `Finished` each key that the lines of the script ask for is settled, where the port tells its bytes.
pub fn run_session<P: Port, M: Memo>(alloc: Global, port: &mut P, memo: &mut M) -> SessionReport
    requires held { IfTold (HoldsNone (M.seat memo.old) M.shard) (M.fronts memo.old) }

    ensures output { IfSome (P.state port.old).left (λ input. Outcome input (P.state port.old).written (P.state port.new).written result) }
    ensures homology { IfSome (P.state port.old).left AreHomologyLists }
    ensures size { IfSome (P.state port.old).left (λ input. HasLengthFor result.end input) }
    ensures at_end { result.end ≡ End.Finished → IsAtEnd (P.state port.new).left }
    ensures answered { result.end ≡ End.ReadFault → AnswersRead (P.state port.old) (P.state port.new) }
    ensures too_much { result.end ≡ End.Long → ReadsTooMuch (P.state port.old) (P.state port.new) }

    ensures read_fault { result.end ≡ End.ReadFault → Rose (P.state port.old).read_faults (P.state port.new).read_faults }
    ensures no_read_fault { result.end ≢ End.ReadFault → (P.state port.new).read_faults ≡ (P.state port.old).read_faults }
    ensures write_fault { result.end ≡ End.WriteFault → Rose (P.state port.old).write_faults (P.state port.new).write_faults }
    ensures no_write_fault { result.end ≢ End.WriteFault → (P.state port.new).write_faults ≡ (P.state port.old).write_faults }

    ensures long { result.end ≡ End.Long → raised (P.state port.old).bytes_read 16777217 ≤ (P.state port.new).bytes_read }
    ensures finished { result.end ≡ End.Finished → (P.state port.new).bytes_read ≤ raised (P.state port.old).bytes_read 16777216 }
    ensures ended { result.end ≡ End.Finished → Rose (P.state port.old).empty_reads (P.state port.new).empty_reads }

    ensures seat { M.seat memo.new ≡ M.seat memo.old }
    ensures origin { M.origin memo.new ≡ M.origin memo.old }
    ensures went { Between (Went (M.seat memo.old) M.shard) (M.fronts memo.old) (M.fronts memo.new) }
    ensures held { IfTold (HoldsNone (M.seat memo.new) M.shard) (M.fronts memo.new) }
    ensures settled { result.end ≡ End.Finished → IfSome (P.state port.old).left (SettlesScript (M.seat memo.old) M.shard (M.fronts memo.old) (M.fronts memo.new)) }
{
    answer_over::<P, M, Brand>(alloc, port, memo, Blank::new(1))
}

// Answers the lines of the input in a new session, by an engine over the memo.
fn answer_over<P: Port, M: Memo, L: Ledger>(
    alloc: Global,
    port: &mut P,
    memo: &mut M,
    blank: Blank,
) -> SessionReport
    requires held { IfTold (HoldsNone (M.seat memo.old) M.shard) (M.fronts memo.old) }
    requires blank { (blank.name ≡ L.name) × (blank.parts ≡ L.parts) × (0 < blank.parts) }
    ensures port { OverPort (P.state port.old) (P.state port.new) result }
    ensures seat { M.seat memo.new ≡ M.seat memo.old }
    ensures origin { M.origin memo.new ≡ M.origin memo.old }
    ensures went { Between (Went (M.seat memo.old) M.shard) (M.fronts memo.old) (M.fronts memo.new) }
    ensures settled { result.end ≡ End.Finished → IfSome (P.state port.old).left (SettlesScript (M.seat memo.old) M.shard (M.fronts memo.old) (M.fronts memo.new)) }
{
    let rules = Rules;
    let mut session = new_session(alloc);
    let mut steps: Steps<L> = Steps::new(blank);
    let mut answerer = ByEngine {
        alloc,
        engine: new_engine(&rules, memo),
        steps: &mut steps,
    };
    answer_input(alloc, port, &mut session, &mut answerer)
}
