// The calls of a table.
ghost use Rattle.std.specs.Prelude.{◌≡◌, Some};
ghost use Rattle.oracle_iface.specs.Histories.{IsHeld, entry};
ghost use Rattle.oracle_iface.specs.Memos.{IsClaimed, IsLooked, IsOwn, Steps};
ghost use Rattle.oracle_iface.specs.declared.entries.Act.TheVariants.{Publishes, Releases};
ghost use Rattle.memo_shared.specs.Shards.{shard_number};
ghost use Rattle.memo_shared.specs.Shared.{fronts_of, seat_of, IsOf, IsSame};

use crate::memo::{MemoPass, SharedMemo};
use crate::parts::{claim_part, look_part, publish_part, release_part};
use crate::places::place_of;
use oracle_iface::{CellValue, Claim, Key, Ticket};
use seqs::Arc;
use std::alloc::AllocError;
use std::sync::Wait;

impl SharedMemo {
    /// Claims a key for the pass's seat. There is a legal history of the key's shard that begins with the pass's front, and the answer is
    /// that of a book with this history: Present exactly where the key is published there, with its cell; Busy exactly where a seat holds it,
    /// this one included, with that seat; Full exactly where the shard has 65,536 keys and this is none of them; and else Granted, and then the
    /// seat holds the key. The pass has then seen that history, with its own claim where it was granted. The only error is want of memory, and
    /// then the call has added nothing.
    pub fn claim(
        &self,
        rt: &impl Wait,
        pass: &mut MemoPass,
        key: &Arc<Key>,
    ) -> Result<Claim, AllocError>
        requires pass { IsOf self.now pass.old }
        ensures pass { IsOf self.now pass.new × IsSame pass.old pass.new }
        ensures answer { IsClaimed (seat_of pass.old) (shard_number key.now) key.now (Some (fronts_of pass.old)) (Some (fronts_of pass.new)) result }
    {
        let seat = pass.seat;
        let place = place_of(key);
        claim_part(rt, &self.shards[place], &mut pass.parts[place], key, seat)
    }

    /// Publishes what the key of a ticket comes to, which the pass's seat holds in its front. Nobody else can have changed that, so the key is
    /// then published, and stays so. It takes no memory.
    pub fn publish(
        &self,
        rt: &impl Wait,
        pass: &mut MemoPass,
        ticket: Ticket,
        value: Arc<CellValue>,
    )
        requires pass { IsOf self.now pass.old }
        requires value { value.key ≡ ticket.key }
        requires ticket { IsOwn (seat_of pass.old) (shard_number ticket.key) (Some (fronts_of pass.old)) ticket }
        ensures pass { IsOf self.now pass.new × IsSame pass.old pass.new }
        ensures front { Steps (seat_of pass.old) (shard_number ticket.key) (Some (fronts_of pass.old)) (Some (fronts_of pass.new))
            (λ h. IsHeld h ticket.key (seat_of pass.old)) (entry Publishes (seat_of pass.old) ticket.key) }
    {
        let place = place_of(&ticket.key);
        publish_part(
            rt,
            &self.shards[place],
            &mut pass.parts[place],
            ticket,
            value,
        );
    }

    /// Gives the key of a ticket back, which the pass's seat holds in its front. It takes no memory.
    pub fn release(&self, rt: &impl Wait, pass: &mut MemoPass, ticket: Ticket)
        requires pass { IsOf self.now pass.old }
        requires ticket { IsOwn (seat_of pass.old) (shard_number ticket.key) (Some (fronts_of pass.old)) ticket }
        ensures pass { IsOf self.now pass.new × IsSame pass.old pass.new }
        ensures front { Steps (seat_of pass.old) (shard_number ticket.key) (Some (fronts_of pass.old)) (Some (fronts_of pass.new))
            (λ h. IsHeld h ticket.key (seat_of pass.old)) (entry Releases (seat_of pass.old) ticket.key) }
    {
        let place = place_of(&ticket.key);
        release_part(rt, &self.shards[place], &mut pass.parts[place], ticket);
    }

    /// The cell of a key, or None exactly where the key is not published, in a legal history of its shard that begins with the pass's front.
    /// The pass has then seen that history. The only error is want of memory.
    pub fn look(
        &self,
        rt: &impl Wait,
        pass: &mut MemoPass,
        key: &Arc<Key>,
    ) -> Result<Option<Arc<CellValue>>, AllocError>
        requires pass { IsOf self.now pass.old }
        ensures pass { IsOf self.now pass.new × IsSame pass.old pass.new }
        ensures answer { IsLooked (seat_of pass.old) (shard_number key.now) key.now (Some (fronts_of pass.old)) (Some (fronts_of pass.new)) result }
    {
        let seat = pass.seat;
        let place = place_of(key);
        look_part(rt, &self.shards[place], &mut pass.parts[place], key, seat)
    }
}
