// Ports that meet.
ghost use Rattle.port_io.specs.Memory.{state_of};

use crate::sides::{Side, port_of, well};
use port_io::{MemPort, Port, PortBox, PortFault, mem_port};
use std::alloc::{AllocError, Global};
use std::sync::Arc;
use std::sync::atomic::{AtomicU64, Ordering};
use std::thread;

// A memory port whose first read sets a flag of its own and then waits for the flag of another. That read is a fault where
// the other flag is not set within a hundred million turns.
#[derive(Drop)]
struct MeetingPort {
    memory: MemPort,
    mine: Arc<AtomicU64, Global>,
    other: Arc<AtomicU64, Global>,
    has_met: bool,
    read_faults: u64,
}

impl Port for MeetingPort {
    ghost state = { λ m. record { left = (state_of m.memory).left; written = (state_of m.memory).written; read_faults = m.read_faults; write_faults = (state_of m.memory).write_faults; bytes_read = (state_of m.memory).bytes_read; empty_reads = (state_of m.memory).empty_reads } };

    fn output(&self) -> Option<&[u8]> {
        self.memory.output()
    }

    fn read(&mut self, buf: &mut [u8]) -> Result<usize, PortFault> {
        if !self.has_met {
            self.has_met = true;
            self.mine.store(1, Ordering::SeqCst);
            if !is_set_soon(&self.other) {
                self.read_faults = self.read_faults.saturating_add(1);
                return Err(PortFault);
            }
        }
        match self.memory.read(buf) {
            Ok(count) => Ok(count),
            Err(fault) => {
                self.read_faults = self.read_faults.saturating_add(1);
                Err(fault)
            }
        }
    }

    fn write(&mut self, bytes: &[u8]) -> Result<usize, PortFault> {
        self.memory.write(bytes)
    }
}

// Whether the flag is set within a hundred million turns.
fn is_set_soon(flag: &AtomicU64) -> bool {
    for turn in 0..100_000_000u32 {
        if flag.load(Ordering::SeqCst) != 0 {
            return true;
        }
        if turn % 1024 == 0 {
            thread::yield_now();
        }
    }
    false
}

fn meeting_port(
    alloc: Global,
    input: &[u8],
    mine: Arc<AtomicU64, Global>,
    other: Arc<AtomicU64, Global>,
) -> Result<PortBox, AllocError> {
    let memory = mem_port(alloc, input, 4096, 4096, &[], &[])?;
    let port = MeetingPort {
        memory,
        mine,
        other,
        has_met: false,
        read_faults: 0,
    };
    Ok(Box::new(alloc, port)?)
}

// Puts two ports that wait for each other at the end.
fn push_meeting(alloc: Global, ports: &mut Vec<PortBox>, input: &[u8]) -> Result<(), AllocError> {
    let first = Arc::new(alloc, AtomicU64::new(0))?;
    let second = Arc::new(alloc, AtomicU64::new(0))?;
    let mine = Arc::try_clone(&first)?;
    let other = Arc::try_clone(&second)?;
    ports.push(meeting_port(alloc, input, mine, other)?)?;
    ports.push(meeting_port(alloc, input, second, first)?)?;
    Ok(())
}

/// Two ports with nothing on them, two that wait for each other, and two that wait for none, these four of one side.
pub fn meeting_ports(alloc: Global, met: &Side) -> Result<Vec<PortBox>, AllocError> {
    let mut ports: Vec<PortBox> = Vec::new(alloc);
    for _ in 0..2 {
        ports.push(port_of(alloc, &well(b"", b""), 16)?)?;
    }
    push_meeting(alloc, &mut ports, met.input)?;
    for _ in 0..2 {
        ports.push(port_of(alloc, met, 16)?)?;
    }
    Ok(ports)
}
