// How a table ends.
ghost use Rattle.std.specs.Prelude.{◌≡◌, ◌≤◌, ℕ, length, slice_get, vec_len, vec_capacity, Some, IfOk, IfErr};
ghost use Rattle.turnstile.specs.Passes as turns;
ghost use Rattle.turnstile.specs.Passes.{passes as parts_of};
ghost use Rattle.memo_shared.specs.Shared.{AtEach};
ghost use Rattle.memo_shared.specs.Whole.{AreOfSeats, AtShards, ContinueAll, IsWhole};
ghost use Rattle.memo_shared.specs.Dealt.{Closes, HasRoom};

use crate::dealing::deal_all;
use crate::lists::{Books, MemoPassList};
use crate::memo::SharedMemo;
use crate::places::SHARDS;
use crate::shard::Shard;
use memo_book::Book;
use std::alloc::{AllocError, Global};
use turnstile::{PassList, Turnstile};

/// There was no memory to close with: the table and its passes come back.
#[derive(Drop)]
pub struct MemoCloseRefused {
    pub memo: SharedMemo,
    pub passes: MemoPassList,
}

// An empty list for each shard, with room for so many parts. Joining the passes of a turnstile takes no memory of its own.
fn part_lists(alloc: Global, passes: u32) -> Result<Vec<PassList<Shard>>, AllocError>
    ensures sized { IfOk result (λ ls. vec_len ls ≡ 16) }
    ensures room { IfOk result (λ ls. (place : ℕ) (l : _) → slice_get ls.items place ≡ Some l → HasRoom passes l) }
{
    let mut lists = Vec::with_capacity(alloc, SHARDS)?;
    for _place in 0..SHARDS {
        lists.push_reserved(PassList::with_room(alloc, passes)?);
    }
    Ok(lists)
}

// The book of a shard to which all parts are given back.
fn close_shard(shard: Turnstile<Shard>, parts: PassList<Shard>) -> Book
    requires { turns.IsWhole shard (parts_of parts) }
    ensures { Closes (parts_of parts) result }
{
    let Ok(closed) = shard.close(parts) else {
        unreachable!()
    };
    let Shard { book } = closed;
    book
}

// The books of all shards, in their order.
fn close_shards(
    mut shards: Vec<Turnstile<Shard>>,
    mut lists: Vec<PassList<Shard>>,
    mut books: Vec<Book>,
) -> Books
    requires sized { (vec_len shards ≡ 16) × (vec_len lists ≡ 16) }
    requires room { (vec_len books ≡ 0) × (16 ≤ vec_capacity books) }
    requires whole { AtEach (λ t l. turns.IsWhole t (parts_of l)) shards.items lists.items }
    ensures sized { length result ≡ 16 }
    ensures closed { AtEach (λ l b. Closes (parts_of l) b) lists.items result }
{
    while let Some(shard) = shards.pop() {
        let Some(parts) = lists.pop() else {
            unreachable!()
        };
        books.push_reserved(close_shard(shard, parts));
    }
    shards.destroy_empty();
    lists.destroy_empty();
    books.reverse();
    Books { books }
}

impl SharedMemo {
    /// The sixteen books of the table, once every pass is given back. The history of each begins with the fronts of all passes; the
    /// entries of a seat there are those in its pass's front, and each entry is of the seat of one of the passes. All memory is taken
    /// first; where there is none, table and passes come back unchanged.
    pub fn close(self, alloc: Global, passes: MemoPassList) -> Result<Books, MemoCloseRefused>
        requires whole { IsWhole self passes }
        ensures books { IfOk result (λ bs. length bs ≡ 16) }
        ensures fronts { IfOk result (λ bs. ContinueAll passes bs) }
        ensures seats { IfOk result (λ bs. AreOfSeats passes bs) }
        ensures err { IfErr result (λ r. (r.memo ≡ self) × (r.passes ≡ passes)) }
    {
        let Ok(mut lists) = part_lists(alloc, passes.len() as u32) else {
            return Err(MemoCloseRefused { memo: self, passes });
        };
        let Ok(books) = Vec::with_capacity(alloc, SHARDS) else {
            return Err(MemoCloseRefused { memo: self, passes });
        };
        let MemoPassList { passes } = passes;
        deal_all(&mut lists, passes);
        let SharedMemo { shards } = self;
        Ok(close_shards(shards, lists, books))
    }
}
