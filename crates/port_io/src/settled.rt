// Reads and writes that a signal may interrupt.
ghost use Rattle.std.specs.Prelude.{◌≡◌, ◌≢◌, ◌↔◌, length, IfErr, IsTrue};
ghost use Rattle.std.specs.Io.{ReadsAtMost, WritesAtMost};
ghost use Rattle.std.specs.Io.KnownBytes.{ReadConsumes, WriteAppends};
ghost use Rattle.std.specs.IoError.{error_kind};

use crate::source::{Sink, Source};
use std::io;
use std::io::{Error, ErrorKind};

fn is_interrupted(fault: &Error) -> bool
    ensures { IsTrue result ↔ (error_kind fault.now ≡ ErrorKind.Interrupted) }
{
    fault.kind() == ErrorKind::Interrupted
}

// A call that was interrupted at each of its tries.
fn never_ended() -> Error
    ensures { error_kind result ≡ ErrorKind.Other }
{
    Error::other("interrupted again and again")
}

/// One read, tried again where a signal interrupts it.
pub(crate) fn read_settled<I: Source>(source: &mut I, buf: &mut [u8]) -> io::Result<usize>
    ensures bound { ReadsAtMost result buf.new }
    ensures bytes { ReadConsumes (I.left source.old) (I.left source.new) result buf.new }
    ensures file { I.file source.new ≡ I.file source.old }
    ensures retried { IfErr result (λ fault. error_kind fault ≢ ErrorKind.Interrupted) }
{
    for _ in 0..u64::MAX {
        match source.read_some(buf) {
            Err(fault) if is_interrupted(&fault) => {}
            settled => return settled,
        }
    }
    Err(never_ended())
}

/// One write, tried again where a signal interrupts it.
pub(crate) fn write_settled<O: Sink>(sink: &mut O, bytes: &[u8]) -> io::Result<usize>
    ensures bound { WritesAtMost result bytes.now }
    ensures bytes { WriteAppends (O.written sink.old) (O.written sink.new) result bytes.now }
    ensures file { O.file sink.new ≡ O.file sink.old }
    ensures retried { IfErr result (λ fault. error_kind fault ≢ ErrorKind.Interrupted) }
{
    for _ in 0..u64::MAX {
        match sink.write_some(bytes) {
            Err(fault) if is_interrupted(&fault) => {}
            settled => return settled,
        }
    }
    Err(never_ended())
}
