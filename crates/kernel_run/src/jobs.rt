// The ports of a batch with the reports of the sessions over them.
ghost use Rattle.std.specs.Prelude.{◌≡◌, ◌+◌, ◌≤◌, [], ◌++◌, vec_len, vec_capacity, take, drop};
ghost use Rattle.kernel_run.specs.Jobs.{ports_of};

use crate::{End, SessionReport};
use port_io::Port;

/// A port, and how the session over it ended.
#[derive(Drop)]
pub(crate) struct Job<P: Port> {
    pub port: P,
    pub report: SessionReport,
}

const NOT_RUN: SessionReport = SessionReport {
    replies: 0,
    errors: 0,
    end: End::Memory,
};

/// Moves the ports of the names into jobs, in their order. It takes no memory.
pub(crate) fn take_ports<P: Port>(ports: &mut Vec<P>, jobs: &mut Vec<Job<P>>)
    requires empty { jobs.old.items ≡ [] }
    requires others { 2 ≤ vec_len ports.old }
    requires room { vec_len ports.old ≤ vec_capacity jobs.old }
    ensures ports { ports.new.items ≡ take 2 ports.old.items }
    ensures jobs { ports_of jobs.new.items ≡ drop 2 ports.old.items }
    ensures room { vec_capacity ports.new ≡ vec_capacity ports.old }
{
    while ports.len() > 2 {
        let port = ports.pop().unwrap();
        jobs.push_reserved(Job {
            port,
            report: NOT_RUN,
        });
    }
    jobs.reverse();
}

/// Moves the ports of jobs back behind the others, in their order. It takes no memory.
pub(crate) fn give_ports<P: Port>(jobs: &mut Vec<Job<P>>, ports: &mut Vec<P>)
    requires room { vec_len ports.old + vec_len jobs.old ≤ vec_capacity ports.old }
    ensures { ports.new.items ≡ ports.old.items ++ ports_of jobs.old.items }
{
    jobs.reverse();
    while let Some(Job { port, report: _ }) = jobs.pop() {
        ports.push_reserved(port);
    }
}
