// What a port reads from, and what it writes to.
ghost use Rattle.std.specs.Prelude.{◌≡◌, ℕ, List, Option, None};
ghost use Rattle.std.specs.Io.{ReadsAtMost, WritesAtMost};
ghost use Rattle.std.specs.Io.KnownBytes.{ReadConsumes, WriteAppends};

use std::io;
use std::io::{Read, Write};

/// What a port reads from: any reader of std, or a file that is opened at the first read.
pub trait Source: Drop {
    /// The bytes that are left, where they are known.
    ghost left: { Self → Option (List ℕ) };

    /// The name of the file that is read.
    ghost file: { Self → Option (List ℕ) } = { λ _. None };

    /// One read, as std's.
    fn read_some(&mut self, buf: &mut [u8]) -> io::Result<usize>
        ensures bound { ReadsAtMost result buf.new }
        ensures bytes { ReadConsumes (left self.old) (left self.new) result buf.new }
        ensures file { file self.new ≡ file self.old };
}

/// What a port writes to: any writer of std, or a file that is created at the first write.
pub trait Sink: Drop {
    /// The bytes that were written, where they are known.
    ghost written: { Self → Option (List ℕ) };

    /// The name of the file that is written.
    ghost file: { Self → Option (List ℕ) } = { λ _. None };

    /// One write, as std's.
    fn write_some(&mut self, bytes: &[u8]) -> io::Result<usize>
        ensures bound { WritesAtMost result bytes.now }
        ensures bytes { WriteAppends (written self.old) (written self.new) result bytes.now }
        ensures file { file self.new ≡ file self.old };
}

impl<I: Read + Drop> Source for I {
    ghost left = { I.remaining };

    fn read_some(&mut self, buf: &mut [u8]) -> io::Result<usize> {
        self.read(buf)
    }
}

impl<O: Write + Drop> Sink for O {
    ghost written = { O.contents };

    fn write_some(&mut self, bytes: &[u8]) -> io::Result<usize> {
        self.write(bytes)
    }
}
