//! Answers scripts of questions on the homology of spaces.
#![tactic(auto)]

use kernel_run::run_kernel;
use port_io::{PortBox, WordList, console_port, file_port};
use std::alloc::{AllocError, AllocFailed, Global};
use std::env;
use std::io::ErrorKind;
use std::process::ExitCode;
use std::rt::Env;

/// The status where no memory was found for the words or the ports.
const NO_MEMORY: u8 = 5;

/// There was no memory for the words or the ports.
#[derive(Drop)]
struct NoMemory;

impl From<AllocError> for NoMemory {
    fn from(_: AllocError) -> NoMemory {
        NoMemory
    }
}

impl<T: Drop> From<AllocFailed<T>> for NoMemory {
    fn from(_: AllocFailed<T>) -> NoMemory {
        NoMemory
    }
}

/// Makes the console's port and one for each word, runs the kernel over them, and ends with its status.
fn main(rt: HostRuntime) -> ExitCode {
    let alloc = rt.alloc();
    let run = || -> Result<u8, NoMemory> {
        let words = words_of(&rt, alloc)?;
        let mut ports: Vec<PortBox> = Vec::new(alloc);
        ports.push(Box::new(alloc, console_port(rt))?)?;
        for i in 0..words.len() {
            let word = words.get(i).unwrap();
            ports.push(Box::new(alloc, file_port(rt, alloc, word.as_str())?)?)?;
        }
        Ok(run_kernel(&rt, alloc, &words, &mut ports).code)
    };
    ExitCode::from(run().unwrap_or(NO_MEMORY))
}

// The words of the command line after the program's name. Words that are no texts are of no form, as no words are.
fn words_of<R: Env + AllocGlobal>(rt: &R, alloc: Global) -> Result<WordList, NoMemory> {
    let mut words = WordList::new(alloc);
    match env::args(rt) {
        Ok(args) => {
            for word in args.skip(1) {
                words.push(word)?;
            }
            Ok(words)
        }
        Err(fault) if fault.kind() == ErrorKind::OutOfMemory => Err(NoMemory),
        Err(_) => Ok(words),
    }
}
