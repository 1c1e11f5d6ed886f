// Standard input and output as a port.
ghost use Rattle.std.specs.Prelude.{◌≡◌, None};
ghost use Rattle.port_io.specs.Ports.{untold};

use crate::Port;
use crate::stream::StreamPort;
use std::io;
use std::io::Write;

/// What `Print` writes to, as a writer.
#[derive(Drop)]
pub struct Printed<R: Print + Drop> {
    rt: R,
}

impl<R: Print + Drop> Write for Printed<R> {
    fn write(&mut self, buf: &[u8]) -> io::Result<usize> {
        self.rt.write_some(buf)
    }

    fn flush(&mut self) -> io::Result<()> {
        Ok(())
    }
}

/// Standard input and standard output.
pub type ConsolePort<R> = StreamPort<<R as Input>::Reader, Printed<R>>;

/// The port that reads the standard input of `rt` and writes its standard output.
pub fn console_port<R: Input + Print + Drop>(rt: R) -> ConsolePort<R>
    ensures state { ⟦<ConsolePort<R> as Port>⟧.state result ≡ untold }
    ensures files { ⟦<ConsolePort<R> as Port>⟧.files result ≡ None }
{
    let reader = rt.reader();
    StreamPort::new(reader, Printed { rt })
}
