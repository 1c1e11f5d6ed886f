// The calls on one shard, through its turnstile. Each takes the book out, makes one step of its history, and gives it back.
ghost use Rattle.std.specs.Prelude.{◌≡◌};
ghost use Rattle.oracle_iface.specs.Histories.{IsHeld, entry};
ghost use Rattle.oracle_iface.specs.Memos.{Grows};
ghost use Rattle.oracle_iface.specs.declared.entries.Act.TheVariants.{Publishes, Releases};
ghost use Rattle.turnstile.specs.Passes.{front, number, IsOutside, IsPassOf, IsSamePass};
ghost use Rattle.memo_shared.specs.Answers.{IsClaimedBy, IsLookedBy};

use crate::shard::Shard;
use oracle_iface::{CellValue, Claim, Key, Ticket};
use seqs::Arc;
use std::alloc::AllocError;
use std::sync::Wait;
use turnstile::{Pass, Turnstile};

// Claims a key in its shard.
pub(crate) fn claim_part(
    rt: &impl Wait,
    shard: &Turnstile<Shard>,
    part: &mut Pass<Shard>,
    key: &Arc<Key>,
    seat: u32,
) -> Result<Claim, AllocError>
    requires shard { IsPassOf shard.now part.old }
    requires outside { IsOutside part.old × (number part.old ≡ seat) }
    ensures part { IsSamePass part.old part.new × IsOutside part.new }
    ensures answer { IsClaimedBy seat key.now (Grows seat (front part.old) (front part.new)) result }
{
    let mut found = shard.enter(rt, part);
    found.book.kept();
    let answer = found.book.claim(key, seat);
    found.book.kept();
    shard.leave(part, found);
    answer
}

// Publishes what a key of the shard comes to.
pub(crate) fn publish_part(
    rt: &impl Wait,
    shard: &Turnstile<Shard>,
    part: &mut Pass<Shard>,
    ticket: Ticket,
    value: Arc<CellValue>,
)
    requires shard { IsPassOf shard.now part.old }
    requires outside { IsOutside part.old × (number part.old ≡ ticket.seat) }
    requires value { value.key ≡ ticket.key }
    requires held { IsHeld (front part.old) ticket.key ticket.seat }
    ensures part { IsSamePass part.old part.new × IsOutside part.new }
    ensures front { Grows ticket.seat (front part.old) (front part.new) (λ h. IsHeld h ticket.key ticket.seat) (entry Publishes ticket.seat ticket.key) }
{
    let mut found = shard.enter(rt, part);
    found.book.kept();
    found.book.publish(ticket, value);
    found.book.kept();
    shard.leave(part, found);
}

// Gives a key of the shard back.
pub(crate) fn release_part(
    rt: &impl Wait,
    shard: &Turnstile<Shard>,
    part: &mut Pass<Shard>,
    ticket: Ticket,
)
    requires shard { IsPassOf shard.now part.old }
    requires outside { IsOutside part.old × (number part.old ≡ ticket.seat) }
    requires held { IsHeld (front part.old) ticket.key ticket.seat }
    ensures part { IsSamePass part.old part.new × IsOutside part.new }
    ensures front { Grows ticket.seat (front part.old) (front part.new) (λ h. IsHeld h ticket.key ticket.seat) (entry Releases ticket.seat ticket.key) }
{
    let mut found = shard.enter(rt, part);
    found.book.kept();
    found.book.release(ticket);
    found.book.kept();
    shard.leave(part, found);
}

// Looks a key of the shard up.
pub(crate) fn look_part(
    rt: &impl Wait,
    shard: &Turnstile<Shard>,
    part: &mut Pass<Shard>,
    key: &Arc<Key>,
    seat: u32,
) -> Result<Option<Arc<CellValue>>, AllocError>
    requires shard { IsPassOf shard.now part.old }
    requires outside { IsOutside part.old × (number part.old ≡ seat) }
    ensures part { IsSamePass part.old part.new × IsOutside part.new }
    ensures answer { IsLookedBy key.now (Grows seat (front part.old) (front part.new)) result }
{
    let found = shard.enter(rt, part);
    found.book.kept();
    let answer = found.book.look(key);
    shard.leave(part, found);
    answer
}
