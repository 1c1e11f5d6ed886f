// The shard of a key.
ghost use Rattle.std.specs.Prelude.{◌≡◌, ◌<◌};
ghost use Rattle.memo_shared.specs.Shards.{op_number, place_degree, shard_number};

use cells::{dim, small_degree};
use fp_field::value;
use oracle_iface::{Key, Op, Place};
use seqs::Arc;

/// The number of shards.
pub(crate) const SHARDS: usize = 16;

// The place of an operation in the order of the enum.
fn op_place(op: Op) -> u64
    ensures { result ≡ op_number op }
{
    match op {
        Op::Basis => 0,
        Op::SmallD => 1,
        Op::F => 2,
        Op::G => 3,
        Op::H => 4,
        Op::Cycles => 5,
    }
}

// The degree of the place of a key.
fn degree_at(place: &Place) -> u32
    ensures { result ≡ place_degree place.now }
{
    match place {
        Place::Degree(n) => *n,
        Place::Small(y) => small_degree(y),
        Place::Big(x) => dim(x),
    }
}

/// The number of the shard that a key belongs to: the places of its operation in the order of the enum, the degree of its place and
/// its prime together, modulo 16.
pub fn shard_of(key: &Key) -> usize
    ensures number { result ≡ shard_number key.now }
    ensures below { result < 16 }
{
    let sum = op_place(key.op) + degree_at(&key.place) as u64 + value(key.prime) as u64;
    (sum % 16) as usize
}

// The number of the shard of a key that is shared.
pub(crate) fn place_of(key: &Arc<Key>) -> usize
    ensures number { result ≡ shard_number key.now }
    ensures below { result < 16 }
{
    shard_of(key.get())
}
