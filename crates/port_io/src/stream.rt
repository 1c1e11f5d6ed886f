// A port over a reader and a writer.
ghost use Rattle.std.specs.Prelude.{◌≡◌, ◌<◌, ◌≤◌, IfOk, length, None};
ghost use Rattle.std.specs.Io.{ReadsAtMost, WritesAtMost};
ghost use Rattle.std.specs.Io.KnownBytes.{ReadConsumes, WriteAppends};
ghost use Rattle.port_io.specs.Ports.{Takes, Puts, EndsAt, CountsBytes, CountsEmpty, CountsFaults, PortState};
ghost use Rattle.port_io.specs.Streams.{files_between};

use crate::settled::{read_settled, write_settled};
use crate::source::{Sink, Source};
use crate::{Port, PortFault};

/// A port that reads `source` and writes `sink`. Its state tells no bytes, since it has no output to give; its calls say what comes of
/// those of the source and of the sink.
#[derive(Drop)]
pub struct StreamPort<I: Source, O: Sink> {
    source: I,
    sink: O,
    read_faults: u64,
    write_faults: u64,
    bytes_read: u64,
    empty_reads: u64,
}

impl<I: Source, O: Sink> StreamPort<I, O> {
    /// A port that was not used.
    pub fn new(source: I, sink: O) -> Self
        ensures source { result.source ≡ source }
        ensures sink { result.sink ≡ sink }
        ensures counts { (result.read_faults ≡ 0) × (result.write_faults ≡ 0) × (result.bytes_read ≡ 0) × (result.empty_reads ≡ 0) }
    {
        StreamPort {
            source,
            sink,
            read_faults: 0,
            write_faults: 0,
            bytes_read: 0,
            empty_reads: 0,
        }
    }
}

impl<I: Source, O: Sink> Port for StreamPort<I, O> {
    ghost state = { λ p. record { left = None; written = None; read_faults = p.read_faults; write_faults = p.write_faults; bytes_read = p.bytes_read; empty_reads = p.empty_reads } };

    ghost files = { λ p. files_between (I.file p.source) (O.file p.sink) };

    fn output(&self) -> Option<&[u8]> {
        None
    }

    fn read(&mut self, buf: &mut [u8]) -> Result<usize, PortFault>
        requires { 0 < length buf.old }
        ensures bound { ReadsAtMost result buf.new }
        ensures bytes_read { CountsBytes self.old.bytes_read self.new.bytes_read result }
        ensures empty_reads { CountsEmpty self.old.empty_reads self.new.empty_reads result }
        ensures read_faults { CountsFaults self.old.read_faults self.new.read_faults result }
        ensures write_faults { self.new.write_faults ≡ self.old.write_faults }
        ensures source { ReadConsumes (I.left self.old.source) (I.left self.new.source) result buf.new }
        ensures source_file { I.file self.new.source ≡ I.file self.old.source }
        ensures sink { self.new.sink ≡ self.old.sink }
    {
        match read_settled(&mut self.source, buf) {
            Ok(count) => {
                if count == 0 {
                    self.empty_reads = self.empty_reads.saturating_add(1);
                }
                self.bytes_read = self.bytes_read.saturating_add(count as u64);
                Ok(count)
            }
            Err(_) => {
                self.read_faults = self.read_faults.saturating_add(1);
                Err(PortFault)
            }
        }
    }

    fn write(&mut self, bytes: &[u8]) -> Result<usize, PortFault>
        ensures some { IfOk result (λ n. 0 < length bytes.now → 1 ≤ n) }
        ensures bound { WritesAtMost result bytes.now }
        ensures write_faults { CountsFaults self.old.write_faults self.new.write_faults result }
        ensures read_faults { self.new.read_faults ≡ self.old.read_faults }
        ensures bytes_read { self.new.bytes_read ≡ self.old.bytes_read }
        ensures empty_reads { self.new.empty_reads ≡ self.old.empty_reads }
        ensures sink { WriteAppends (O.written self.old.sink) (O.written self.new.sink) result bytes.now }
        ensures sink_file { O.file self.new.sink ≡ O.file self.old.sink }
        ensures source { self.new.source ≡ self.old.source }
    {
        match write_settled(&mut self.sink, bytes) {
            Ok(count) if count > 0 || bytes.is_empty() => Ok(count),
            _ => {
                self.write_faults = self.write_faults.saturating_add(1);
                Err(PortFault)
            }
        }
    }
}
