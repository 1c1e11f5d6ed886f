// All that the program does.
ghost use Rattle.std.specs.Prelude.{◌≡◌, ◌≢◌, ◌↔◌, ◌+◌, ◌<◌, ◌≤◌, length, vec_len, map, drop, codes, true, false};
ghost use Rattle.kernel_run.specs.Batch.{BatchOver};
ghost use Rattle.kernel_run.specs.Kernel.{AtConsole, OneSession, ShowsUsage, unused};
ghost use Rattle.kernel_run.specs.Words.{is_session, is_batch, has_form, code_of};

use crate::batch::run_batch;
use crate::status::code_of;
use crate::words::{is_batch, is_session};
use crate::write::write_text;
use crate::{SessionReport, run_session};
use memo_book::new_book;
use port_io::{Port, PortBox, Status, WordList};
use std::alloc::Global;
use std::sync::Wait;
use std::thread::Threads;

const USAGE: &[u8] = b"usage: kenzo_main session | batch SCRIPT.. | sweep N\n";

/// Runs what the words of the command line ask for, and answers the status that the program ends with. The first port
/// is the console, and behind it stands one port for each word.
///
/// On `session` the console is read and written, and the status is that of the session: 0, or 3 after a fault of the port,
/// 4 for a script that is too long, 5 for want of memory. On `batch` and the names of 1 to 64 scripts, none of them empty
/// and all different, the port of each name is read and written by a session of its own, all at once over one table of
/// results, and then the console gets one line for each. The status is 5 for want of memory of a session or of the lines,
/// else 3 after a fault of a port, else 4 where a script is too long, else 0; a session that ends early ends no other. On
/// other words the console gets the usage line, and the status is 2.
pub fn run_kernel<R: Threads + Wait + Sync>(
    rt: &R,
    alloc: Global,
    words: &WordList,
    ports: &mut Vec<PortBox>,
) -> Status
    requires { vec_len ports.old ≡ length words.now + 1 }
    ensures length { vec_len ports.new ≡ vec_len ports.old }
    ensures others { unused words.now ports.new.items ≡ unused words.now ports.old.items }
    ensures session { is_session words.now ≡ true → AtConsole (λ a b. OneSession a b result.code) (map ⟦<PortBox as Port>⟧.state ports.old.items) (map ⟦<PortBox as Port>⟧.state ports.new.items) }
    ensures batch { is_batch words.now ≡ true → BatchOver words.now (map ⟦<PortBox as Port>⟧.state ports.old.items) (map ⟦<PortBox as Port>⟧.state ports.new.items) result.code }
    ensures usage { has_form words.now ≡ false → AtConsole ShowsUsage (map ⟦<PortBox as Port>⟧.state ports.old.items) (map ⟦<PortBox as Port>⟧.state ports.new.items) }
    ensures wrong_words { (result.code ≡ 2) ↔ (has_form words.now ≡ false) }
{
    if is_session(words) {
        one_session(alloc, &mut ports[0])
    } else if is_batch(words) {
        run_batch(rt, alloc, words, ports)
    } else {
        show_usage(&mut ports[0])
    }
}

// One session over a table of its own, and the status that its end gives.
fn one_session<P: Port>(alloc: Global, port: &mut P) -> Status
    ensures { OneSession (P.state port.old) (P.state port.new) result.code }
{
    let mut book = new_book(alloc);
    let report = run_session(alloc, port, &mut book);
    status_of(report)
}

// Says how the program is called.
fn show_usage<P: Port>(port: &mut P) -> Status
    ensures code { result.code ≡ 2 }
    ensures shows { ShowsUsage (P.state port.old) (P.state port.new) }
{
    match write_text(port, USAGE) {
        Ok(()) => Status { code: 2 },
        Err(_) => Status { code: 2 },
    }
}

fn status_of(report: SessionReport) -> Status
    ensures { result.code ≡ code_of report.end }
{
    Status {
        code: code_of(report.end),
    }
}
