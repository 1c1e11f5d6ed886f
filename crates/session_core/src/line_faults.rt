// Why a line has no reply.

/// Why a line has no reply at all.
#[derive(Clone, Copy, Debug, PartialEq, Eq)]
pub enum LineFault {
    /// Want of memory. The session has then ended.
    Memory,
    /// An earlier line wanted for memory, or the session was ended.
    Ended,
}
