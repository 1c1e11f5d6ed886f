// The line that is open while a script is read.
ghost use Rattle.std.specs.Prelude.{◌≡◌, ◌≤◌, [], ◌++◌, length, OnOk, OnErr, List, ℕ};
ghost use Rattle.kernel_run.specs.Pieces.{kept};

use crate::lines::first_bytes;
use std::alloc::{AllocError, Global};
use std::marker::Model;

/// One more than a line may have.
const MOST_KEPT: usize = 65_537;

/// The first bytes of a line whose line feed was not read, no more than show that it is too long. Contracts see these bytes.
#[derive(Drop)]
pub(crate) struct OpenLine {
    first: Vec<u8>,
}

impl Model for OpenLine {
    ghost Value = { List ℕ };

    ghost view = { λ line. line.first.items };

    ghost invariant = { λ line. length line.first.items ≤ 65537 };
}

impl OpenLine {
    /// A line of which nothing was read. Its memory will come from `alloc`.
    pub(crate) fn new(alloc: Global) -> OpenLine
        ensures { result ≡ [] }
    {
        OpenLine {
            first: Vec::new(alloc),
        }
    }

    /// More of the line was read.
    pub(crate) fn push(&mut self, bytes: &[u8]) -> Result<(), AllocError>
        ensures pushed { OnOk result (self.new ≡ kept (self.old ++ bytes.now)) }
        ensures unchanged { OnErr result (self.new ≡ self.old) }
    {
        let room = MOST_KEPT - self.first.len();
        self.first.extend_from_slice(first_bytes(bytes, room))
    }

    /// What is kept of the line.
    pub(crate) fn bytes(&self) -> &[u8]
        ensures { result.now ≡ self.now }
    {
        &self.first
    }

    /// Begins the next line.
    pub(crate) fn clear(&mut self)
        ensures { self.new ≡ [] }
    {
        self.first.clear();
    }
}
