// A pass at work.
ghost use Rattle.std.specs.Prelude.{Some};
ghost use Rattle.memo_shared.specs.Shards.{shard_number};
ghost use Rattle.memo_shared.specs.Shared.{fronts_of, is_of_prop, seat_of, IsOf};

use crate::memo::{MemoPass, SharedMemo};
use oracle_iface::{CellValue, Claim, Key, Memo, Ticket};
use seqs::Arc;
use std::alloc::AllocError;
use std::sync::Wait;

/// A pass at work on its table, as a memo of the pass's seat. It tells the pass's fronts.
#[derive(Drop)]
pub struct Desk<'a, W: Wait> {
    pub rt: &'a W,
    pub memo: &'a SharedMemo,
    pub pass: &'a mut MemoPass,
    pub ghost of_memo: { IsOf memo.now pass.now } by { is_of_prop memo.now pass.now },
}

/// What a desk was made with: the table, the loan of the pass, and how many passes this had made. So when a desk ends, the pass
/// that was lent is one of that table, with the seat and the fronts of the desk. No value of it is made.
pub struct Loan {
    pub memo: SharedMemo,
    pub loan: u64,
    pub made: u32,
}

impl<'a, W: Wait> Memo for Desk<'a, W> {
    type Origin = Loan;

    ghost seat = { λ d. seat_of d.pass.now };

    ghost shard = { shard_number };

    ghost fronts = { λ d. Some (fronts_of d.pass.now) };

    ghost origin = { λ d. record { memo = d.memo.now; loan = d.pass.ghost_name; made = d.pass.now.made } };

    fn claim(&mut self, key: &Arc<Key>) -> Result<Claim, AllocError> {
        self.memo.claim(self.rt, self.pass, key)
    }

    fn publish(&mut self, ticket: Ticket, value: Arc<CellValue>) {
        self.memo.publish(self.rt, self.pass, ticket, value);
    }

    fn release(&mut self, ticket: Ticket) {
        self.memo.release(self.rt, self.pass, ticket);
    }

    fn look(&mut self, key: &Arc<Key>) -> Result<Option<Arc<CellValue>>, AllocError> {
        self.memo.look(self.rt, self.pass, key)
    }
}
