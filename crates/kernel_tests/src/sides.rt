// The kernel over memory ports: what stands on each, and what is written to each.
ghost use Rattle.std.specs.Prelude.{◌≤◌};

use kernel_run::run_kernel;
use port_io::{PortBox, WordList, mem_port};
use std::alloc::{AllocError, Global};
use std::sync::Wait;
use std::thread::Threads;

/// What stands on a port, which of its reads and which of its writes fails, counted from 1, where 0 is none, and what is written to it.
#[derive(Clone, Copy)]
pub struct Side<'a> {
    pub input: &'a [u8],
    pub bad_read: u64,
    pub bad_write: u64,
    pub output: &'a [u8],
}

/// A port with nothing on it, to which nothing is written.
const SILENT: Side<'static> = Side {
    input: b"",
    bad_read: 0,
    bad_write: 0,
    output: b"",
};

/// A port on which each call goes well.
pub fn well<'a>(input: &'a [u8], output: &'a [u8]) -> Side<'a> {
    Side {
        input,
        bad_read: 0,
        bad_write: 0,
        output,
    }
}

/// The memory port of a side. Each call moves at most `piece` bytes.
pub fn port_of(alloc: Global, side: &Side, piece: usize) -> Result<PortBox, AllocError>
    requires { 1 ≤ piece }
{
    let port = mem_port(
        alloc,
        side.input,
        piece,
        4096,
        &[side.bad_read],
        &[side.bad_write],
    )?;
    Ok(Box::new(alloc, port)?)
}

// The ports of the sides, and silent ones up to the number of ports.
fn ports_of(
    alloc: Global,
    sides: &[Side],
    count: usize,
    piece: usize,
) -> Result<Vec<PortBox>, AllocError>
    requires { 1 ≤ piece }
{
    let mut ports: Vec<PortBox> = Vec::new(alloc);
    for i in 0..count {
        let side = sides.get(i).unwrap_or(&SILENT);
        ports.push(port_of(alloc, side, piece)?)?;
    }
    Ok(ports)
}

// The words of a command line, one on each line of the text.
pub fn words_of(alloc: Global, text: &str) -> Result<WordList, AllocError> {
    let mut words = WordList::new(alloc);
    for word in text.lines() {
        words.push(String::from_str(alloc, word)?)?;
    }
    Ok(words)
}

/// The status of the kernel, where there is a port for the console and one for each word.
pub fn code_of<R: Threads + Wait + Sync>(
    rt: &R,
    alloc: Global,
    words: &WordList,
    ports: &mut Vec<PortBox>,
) -> Option<u8> {
    if ports.len().checked_sub(1) != Some(words.len()) {
        return None;
    }
    Some(run_kernel(rt, alloc, words, ports).code)
}

/// Whether what was written to a port is the text.
pub fn says(port: &PortBox, output: &[u8]) -> bool {
    match port.output() {
        Some(bytes) => bytes == output,
        None => false,
    }
}

/// Whether what was written to each port is what its side says.
pub fn all_say(ports: &[PortBox], sides: &[Side]) -> bool {
    for (port, side) in ports.iter().zip(sides) {
        if !says(port, side.output) {
            return false;
        }
    }
    true
}

/// Whether the kernel, asked by the words on the lines of a text, ends with a status and has written what the sides say. The first side is
/// the console, and ports without a side are silent.
pub fn ends_with<R: Threads + Wait + Sync>(
    rt: &R,
    alloc: Global,
    words: &str,
    sides: &[Side],
    piece: usize,
    code: u8,
) -> Result<bool, AllocError>
    requires { 1 ≤ piece }
{
    let words = words_of(alloc, words)?;
    let mut ports = ports_of(alloc, sides, words.len().saturating_add(1), piece)?;
    let told = code_of(rt, alloc, &words, &mut ports);
    Ok(told == Some(code) && all_say(&ports, sides))
}
