// A table of results, as one session sees it.
ghost use Rattle.oracle_iface.specs.Memos.{IsOwn, Steps, IsClaimed, IsLooked};
ghost use Rattle.oracle_iface.specs.Histories.{IsHeld, entry};
ghost use Rattle.oracle_iface.specs.declared.entries.Act.TheVariants.{Publishes, Releases};
ghost use Rattle.oracle_iface.specs.declared.entries.Entry.{Entry};
ghost use Rattle.oracle_iface.specs.declared.keys.Key.{Key};
ghost use Rattle.std.specs.Prelude.{◌≡◌, ℕ, List, Option};

use crate::cell_values::CellValue;
use crate::keys::Key;
use seqs::Arc;
use std::alloc::AllocError;

/// The right to publish a key, which the table shares, and the duty to do so or to give the key back: it cannot
/// be dropped.
#[derive(Debug)]
pub struct Ticket {
    pub key: Arc<Key>,
    pub seat: u32,
}

/// How a table answers a claim.
#[derive(Debug)]
pub enum Claim {
    /// The seat that asks holds the key now.
    Granted(Ticket),
    /// The key is published, with this cell.
    Present(Arc<CellValue>),
    /// This seat holds the key, and it may be the one that asks.
    Busy(u32),
    /// The part of the table that the key belongs to has this many keys, and this is none of them.
    Full(u32),
}

/// A table of results, as one seat sees it. The table may have several parts, its shards; a key belongs to one of
/// them, which has a history. What the seat has seen of the histories are its fronts, and a memo may tell
/// them. Other seats act too, so a front grows at a call by what they did since, and then by what the call
/// itself did; the answer is that of a table whose history is the front without this.
pub trait Memo {
    /// What the memo was made with.
    type Origin;

    /// The seat.
    ghost seat: { Self → ℕ };

    /// The number of the shard that a key belongs to.
    ghost shard: { Key → ℕ };

    /// The front of each shard, or nothing where no front is told.
    ghost fronts: { Self → Option (ℕ → List Entry) };

    /// What it was made with.
    ghost origin: { Self → Self.Origin };

    /// Claims a key, which the memo then shares.
    fn claim(&mut self, key: &Arc<Key>) -> Result<Claim, AllocError>
        ensures seat { seat self.new ≡ seat self.old }
        ensures origin { origin self.new ≡ origin self.old }
        ensures answer { IsClaimed (seat self.old) (shard key.now) key.now (fronts self.old) (fronts self.new) result };

    /// Publishes what the key of a ticket comes to.
    fn publish(&mut self, ticket: Ticket, value: Arc<CellValue>)
        requires value { value.key ≡ ticket.key }
        requires ticket { IsOwn (seat self.old) (shard ticket.key) (fronts self.old) ticket }
        ensures seat { seat self.new ≡ seat self.old }
        ensures origin { origin self.new ≡ origin self.old }
        ensures front { Steps (seat self.old) (shard ticket.key) (fronts self.old) (fronts self.new)
            (λ h. IsHeld h ticket.key (seat self.old)) (entry Publishes (seat self.old) ticket.key) };

    /// Gives the key of a ticket back.
    fn release(&mut self, ticket: Ticket)
        requires ticket { IsOwn (seat self.old) (shard ticket.key) (fronts self.old) ticket }
        ensures seat { seat self.new ≡ seat self.old }
        ensures origin { origin self.new ≡ origin self.old }
        ensures front { Steps (seat self.old) (shard ticket.key) (fronts self.old) (fronts self.new)
            (λ h. IsHeld h ticket.key (seat self.old)) (entry Releases (seat self.old) ticket.key) };

    /// What a key comes to, or None exactly where it is not published.
    fn look(&mut self, key: &Arc<Key>) -> Result<Option<Arc<CellValue>>, AllocError>
        ensures seat { seat self.new ≡ seat self.old }
        ensures origin { origin self.new ≡ origin self.old }
        ensures answer { IsLooked (seat self.old) (shard key.now) key.now (fronts self.old) (fronts self.new) result };
}
