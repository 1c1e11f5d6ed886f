// A port, and the boxed one.
ghost use Rattle.std.specs.Prelude.{◌≡◌, ◌<◌, ◌≤◌, IfOk, length, List, ℕ, Option, None};
ghost use Rattle.std.specs.Option.{option_copied};
ghost use Rattle.std.specs.Io.{ReadsAtMost, WritesAtMost};
ghost use Rattle.port_io.specs.Streams.{PortFiles};
ghost use Rattle.port_io.specs.Ports.{PortState, Takes, Puts, EndsAt, CountsBytes, CountsEmpty, CountsFaults};

/// A read or a write that failed. The port has counted it, and no byte moved.
#[derive(Clone, Copy, Debug, PartialEq, Eq)]
pub struct PortFault;

/// A place to read a script from and to write its replies to.
pub trait Port: Drop {
    /// The bytes of both sides, where they are told, and the counts.
    ghost state: { Self → PortState };

    /// The file that it reads and the one that it writes.
    ghost files: { Self → Option PortFiles } = { λ _. None };

    /// The output so far, exactly where it is told.
    fn output(&self) -> Option<&[u8]>
        ensures { option_copied result ≡ (state self.now).written };

    /// Moves the first bytes that are left to the front of `buf`, and answers how many. Ok(0) comes only at the end
    /// of the input, and a fault only where the count of read faults rises.
    fn read(&mut self, buf: &mut [u8]) -> Result<usize, PortFault>
        requires { 0 < length buf.old }
        ensures bound { ReadsAtMost result buf.new }
        ensures left { Takes (state self.old).left (state self.new).left result buf.new }
        ensures end { EndsAt (state self.old).left result }
        ensures bytes_read { CountsBytes (state self.old).bytes_read (state self.new).bytes_read result }
        ensures empty_reads { CountsEmpty (state self.old).empty_reads (state self.new).empty_reads result }
        ensures read_faults { CountsFaults (state self.old).read_faults (state self.new).read_faults result }
        ensures written { (state self.new).written ≡ (state self.old).written }
        ensures write_faults { (state self.new).write_faults ≡ (state self.old).write_faults }
        ensures files { files self.new ≡ files self.old };

    /// Appends the first bytes of `bytes` to the output, and answers how many, at least one unless there are none. A
    /// fault comes only where the count of write faults rises.
    fn write(&mut self, bytes: &[u8]) -> Result<usize, PortFault>
        ensures some { IfOk result (λ n. 0 < length bytes.now → 1 ≤ n) }
        ensures bound { WritesAtMost result bytes.now }
        ensures written { Puts (state self.old).written (state self.new).written result bytes.now }
        ensures write_faults { CountsFaults (state self.old).write_faults (state self.new).write_faults result }
        ensures left { (state self.new).left ≡ (state self.old).left }
        ensures read_faults { (state self.new).read_faults ≡ (state self.old).read_faults }
        ensures bytes_read { (state self.new).bytes_read ≡ (state self.old).bytes_read }
        ensures empty_reads { (state self.new).empty_reads ≡ (state self.old).empty_reads }
        ensures files { files self.new ≡ files self.old };
}

/// A port of any kind.
pub type PortBox = Box<dyn Port + Send>;

impl Port for PortBox {
    ghost state = { λ b. (Port-box b).state b.value };

    ghost files = { λ b. (Port-box b).files b.value };

    fn output(&self) -> Option<&[u8]> {
        (**self).output()
    }

    fn read(&mut self, buf: &mut [u8]) -> Result<usize, PortFault> {
        (**self).read(buf)
    }

    fn write(&mut self, bytes: &[u8]) -> Result<usize, PortFault> {
        (**self).write(bytes)
    }
}
