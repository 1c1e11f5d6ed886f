// A script's file and the file of its replies, as a port.
ghost use Rattle.std.specs.Prelude.{◌≡◌, None, Some, IfOk, string_bytes};
ghost use Rattle.port_io.specs.Ports.{untold};
ghost use Rattle.port_io.specs.Streams.{files_of};

use crate::Port;
use crate::source::{Sink, Source};
use crate::stream::StreamPort;
use std::alloc::{AllocError, Global};
use std::fs::File;
use std::io;
use std::io::{Read, Write};
use std::rt::Files;

/// A file to read, which is opened at the first read.
#[derive(Drop)]
pub struct Opened<R: Files + Drop> {
    rt: R,
    path: String,
    file: Option<R::File>,
}

/// A file to write, which is created at the first write.
#[derive(Drop)]
pub struct Created<R: Files + Drop> {
    rt: R,
    path: String,
    file: Option<R::File>,
}

impl<R: Files + Drop> Source for Opened<R> {
    ghost left = { λ _. None };

    ghost file = { λ it. Some (string_bytes it.path) };

    fn read_some(&mut self, buf: &mut [u8]) -> io::Result<usize> {
        if self.file.is_none() {
            self.file = Some(File::open(&self.rt, &self.path)?);
        }
        self.file.as_mut().unwrap().read(buf)
    }
}

impl<R: Files + Drop> Sink for Created<R> {
    ghost written = { λ _. None };

    ghost file = { λ it. Some (string_bytes it.path) };

    fn write_some(&mut self, bytes: &[u8]) -> io::Result<usize> {
        if self.file.is_none() {
            self.file = Some(File::create(&self.rt, &self.path)?);
        }
        self.file.as_mut().unwrap().write(bytes)
    }
}

/// A script in a file, whose replies go to the file of the same name with `.out` behind it. Each file is made ready at
/// its first use, so a script without output leaves no such file.
pub type FilePort<R> = StreamPort<Opened<R>, Created<R>>;

/// The port that reads the file `script` and writes the file `script.out`. A file that cannot be had is a fault of
/// that read or write, and so is a write that takes nothing.
pub fn file_port<R: Files + Copy + Drop>(
    rt: R,
    alloc: Global,
    script: &str,
) -> Result<FilePort<R>, AllocError>
    ensures state { IfOk result (λ port. ⟦<FilePort<R> as Port>⟧.state port ≡ untold) }
    ensures files { IfOk result (λ port. ⟦<FilePort<R> as Port>⟧.files port ≡ files_of script.now) }
{
    let input = Opened {
        rt,
        path: String::from_str(alloc, script)?,
        file: None,
    };
    let output = Created {
        rt,
        path: format!(in alloc; "{script}.out")?,
        file: None,
    };
    Ok(StreamPort::new(input, output))
}
