// Entries of histories.
use crate::keys::Key;

/// What an entry of a history says that a seat did.
#[derive(Clone, Copy, Debug, PartialEq, Eq)]
pub enum Act {
    /// It took the key, which nobody held, to work on it.
    Claims,
    /// It published what the key, which it held, comes to.
    Publishes,
    /// It gave the key, which it held, back.
    Releases,
}

/// One entry of the history of a table: what a seat did to a key. Contracts speak of entries; a table
/// stores events, each with a number in place of its key.
#[derive(Debug, Drop)]
pub struct Entry {
    pub act: Act,
    pub seat: u32,
    pub key: Key,
}
