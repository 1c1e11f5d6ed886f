// A batch of sessions, all at once over one table of results.
ghost use Rattle.std.specs.Prelude.{◌≡◌, ◌+◌, ◌<◌, ◌≤◌, [], ◌++◌, length, vec_len, vec_capacity, map, take, drop, true, ℕ, slice_index_or};
ghost use Rattle.kernel_run.specs.Batch.{SessionOver, BatchOver};
ghost use Rattle.kernel_run.specs.Kernel.{unused};
ghost use Rattle.kernel_run.specs.Jobs.{ports_of, reports_of};
ghost use Rattle.kernel_run.specs.Progress.{WritesBy};
ghost use Rattle.kernel_run.specs.Session.{ReadsNothing};
ghost use Rattle.kernel_run.specs.Summary.{summary};
ghost use Rattle.kernel_run.specs.Words.{is_batch};

use crate::jobs::{Job, give_ports, take_ports};
use crate::shared_book::SharedBook;
use crate::status::code_of_all;
use crate::summary::summary_text;
use crate::write::write_text;
use crate::{End, run_session};
use memo_book::{Book, new_book};
use port_io::{Port, Status, WordList};
use std::alloc::Global;
use std::sync::{Mutex, Wait};
use std::thread;
use std::thread::Threads;

/// Runs a session over the port of each word behind `batch`, all at once, and then writes a line for each to the console. All the memory
/// that is not a session's or the lines' own is taken first.
pub(crate) fn run_batch<R: Threads + Wait + Sync, P: Port + Send>(
    rt: &R,
    alloc: Global,
    words: &WordList,
    ports: &mut Vec<P>,
) -> Status
    requires words { is_batch words.now ≡ true }
    requires ports { vec_len ports.old ≡ length words.now + 1 }
    ensures length { vec_len ports.new ≡ vec_len ports.old }
    ensures others { unused words.now ports.new.items ≡ unused words.now ports.old.items }
    ensures batch { BatchOver words.now (map P.state ports.old.items) (map P.state ports.new.items) result.code }
{
    let Ok(mut jobs) = Vec::with_capacity(alloc, ports.len()) else {
        return Status { code: 5 };
    };
    take_ports(ports, &mut jobs);
    run_jobs(rt, alloc, &mut jobs);
    let shown = show_summary(alloc, words, &jobs, &mut ports[0]);
    let code = code_of_all(shown, &jobs);
    give_ports(&mut jobs, ports);
    Status { code }
}

/// One session, as the one of a seat at a shared book.
fn run_job<W: Wait, P: Port>(rt: &W, alloc: Global, book: &Mutex<Book>, seat: u32, job: &mut Job<P>)
    ensures { SessionOver (P.state job.old.port) (P.state job.new.port) job.new.report }
{
    let mut memo = SharedBook { rt, book, seat };
    job.report = run_session(alloc, &mut job.port, &mut memo);
}

// All sessions at once.
fn run_jobs<R: Threads + Wait + Sync, P: Port + Send>(rt: &R, alloc: Global, jobs: &mut [Job<P>])
    requires { length jobs.old ≤ 64 }
    ensures len { length jobs.new ≡ length jobs.old }
    ensures each { (i : ℕ) (d : _) → i < length jobs.old → SessionOver (P.state (slice_index_or jobs.old i d).port) (P.state (slice_index_or jobs.new i d).port) (slice_index_or jobs.new i d).report }
{
    if jobs.is_empty() {
        return;
    }
    let book = Mutex::new(new_book(alloc));
    let count = jobs.len();
    thread::for_each_mut(
        rt,
        jobs,
        count,
        &|place: usize, job: &mut Job<P>| run_job(rt, alloc, &book, place as u32, job),
    );
}

// Writes the lines of the sessions, and says how that ended.
fn show_summary<P: Port>(alloc: Global, words: &WordList, jobs: &[Job<P>], console: &mut P) -> End
    requires { length words.now ≡ length jobs.now + 1 }
    ensures lines { WritesBy result (P.state console.old) (P.state console.new) (summary (drop 1 words.now) (reports_of jobs.now)) }
    ensures reads { ReadsNothing (P.state console.old) (P.state console.new) }
{
    let Ok(text) = summary_text(alloc, words, jobs) else {
        return End::Memory;
    };
    match write_text(console, text.as_bytes()) {
        Ok(()) => End::Finished,
        Err(_) => End::WriteFault,
    }
}
