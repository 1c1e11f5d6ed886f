// The table and its passes.
ghost use Rattle.std.specs.Prelude.{◌≡◌, ◌≤◌, vec_len};

use crate::shard::Shard;
use turnstile::{Pass, Turnstile};

/// A table of results in sixteen shards, each behind a turnstile of its own.
#[derive(Drop)]
pub struct SharedMemo {
    pub(crate) shards: Vec<Turnstile<Shard>>,
    ghost sized: { vec_len shards ≡ 16 },
}

/// The right of one seat to work at a table, with a part for each shard. Contracts see its seat, how many passes were made, as the
/// first pass counts them, and its front in each shard, which is all of the shard's history that the seat has seen.
#[derive(Drop)]
pub struct MemoPass {
    pub(crate) seat: u32,
    pub(crate) made: u32,
    pub(crate) parts: Vec<Pass<Shard>>,
    ghost sized: { vec_len parts ≡ 16 },
    ghost few: { made ≤ 64 },
}
