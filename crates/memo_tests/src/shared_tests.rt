// Two passes in turn at one table, and its books.
ghost use Rattle.std.specs.Prelude.{◌≡◌};
ghost use Rattle.memo_shared.specs.Shared.{made_of, seat_of, IsOf, IsSame};

use crate::keys::{empty_cell, key_in};
use crate::tables::{Answer, Told, claimed, opened, told};
use memo_shared::{Books, MemoPass, MemoPassList, SharedMemo, shard_of};
use oracle_iface::{CellValue, Claim, Key};
use seqs::Arc;
use std::alloc::{AllocError, Global};
use std::sync::Wait;

const NOTHING: Told = (Answer::NoMemory, false);

// One pass claims a key and publishes it: what the other is told before and after that, and then the one itself.
fn published(
    rt: &impl Wait,
    memo: &SharedMemo,
    one: &mut MemoPass,
    two: &mut MemoPass,
    key: &Arc<Key>,
    cell: Arc<CellValue>,
) -> [Told; 3]
    requires passes { IsOf memo.now one.old × IsOf memo.now two.old }
    requires cell { cell.key ≡ key.now }
    ensures one { IsOf memo.now one.new × IsSame one.old one.new }
    ensures two { IsOf memo.now two.new × IsSame two.old two.new }
{
    match memo.claim(rt, one, key) {
        Ok(Claim::Granted(ticket)) => {
            let before = told(rt, memo, two, key);
            memo.publish(rt, one, ticket, cell);
            [before, told(rt, memo, two, key), told(rt, memo, one, key)]
        }
        Ok(Claim::Present(_)) => [NOTHING; 3],
        Ok(Claim::Busy(_)) => [NOTHING; 3],
        Ok(Claim::Full(_)) => [NOTHING; 3],
        Err(AllocError) => [NOTHING; 3],
    }
}

// The books of a table whose passes are given back, the later one first.
fn closed(alloc: Global, memo: SharedMemo, one: MemoPass, two: MemoPass) -> Option<Books>
    requires passes { IsOf memo one × IsOf memo two }
    requires seats { (seat_of one ≡ 0) × (made_of one ≡ 2) × (seat_of two ≡ 1) }
{
    let mut passes = MemoPassList::new(alloc);
    passes.push(two).ok()?;
    passes.push(one).ok()?;
    memo.close(alloc, passes).ok()
}

// Of the book of a key's shard, how many keys it has, and whether it has the cell of this key.
fn found(alloc: Global, books: &Books, degree: u32) -> Option<(usize, bool)> {
    let key = key_in(alloc, degree).ok()?;
    let book = books.get(shard_of(key.get()))?;
    let cell = book.look(&key).ok()?;
    Some((book.keys().len(), cell.is_some()))
}

// What is told while the key of degree 5 is published.
fn publish_five(
    rt: &impl Wait,
    alloc: Global,
    memo: &SharedMemo,
    one: &mut MemoPass,
    two: &mut MemoPass,
) -> Option<[Told; 3]>
    requires passes { IsOf memo.now one.old × IsOf memo.now two.old }
    ensures one { IsOf memo.now one.new × IsSame one.old one.new }
    ensures two { IsOf memo.now two.new × IsSame two.old two.new }
{
    let key = key_in(alloc, 5).ok()?;
    let cell = empty_cell(alloc).ok()?;
    Some(published(rt, memo, one, two, &key, cell))
}

// What a pass is told of the key of degree 3.
fn claim_three(
    rt: &impl Wait,
    alloc: Global,
    memo: &SharedMemo,
    pass: &mut MemoPass,
) -> Option<Answer>
    requires { IsOf memo.now pass.old }
    ensures { IsOf memo.now pass.new × IsSame pass.old pass.new }
{
    let key = key_in(alloc, 3).ok()?;
    Some(claimed(rt, memo, pass, &key))
}

fn rows_of_a_publication(rt: &impl Wait, alloc: Global) -> Option<[Told; 3]> {
    let (memo, mut one, mut two) = opened(alloc)?;
    publish_five(rt, alloc, &memo, &mut one, &mut two)
}

// What two seats are told one after the other.
fn rows_of_a_release(rt: &impl Wait, alloc: Global) -> Option<[Option<Answer>; 2]> {
    let (memo, mut one, mut two) = opened(alloc)?;
    Some([
        claim_three(rt, alloc, &memo, &mut one),
        claim_three(rt, alloc, &memo, &mut two),
    ])
}

// The books of a table where the key of degree 5 was published, and that of degree 3 given back.
fn written(rt: &impl Wait, alloc: Global) -> Option<Books> {
    let (memo, mut one, mut two) = opened(alloc)?;
    publish_five(rt, alloc, &memo, &mut one, &mut two);
    claim_three(rt, alloc, &memo, &mut two);
    closed(alloc, memo, one, two)
}

// How many books there are, and what those of the two keys have.
fn rows_of_books(rt: &impl Wait, alloc: Global) -> Option<(usize, [Option<(usize, bool)>; 2])> {
    let books = written(rt, alloc)?;
    let rows = [found(alloc, &books, 5), found(alloc, &books, 3)];
    Some((books.len(), rows))
}

#[test]
fn a_published_key_is_found_by_all(rt: HostRuntime) {
    assert_eq!(rt;
        rows_of_a_publication(&rt, rt.alloc()),
        Some([
            (Answer::Busy(0), false),
            (Answer::Present, true),
            (Answer::Present, true),
        ])
    );
}

#[test]
fn a_key_that_is_given_back_is_free(rt: HostRuntime) {
    assert_eq!(rt;
        rows_of_a_release(&rt, rt.alloc()),
        Some([Some(Answer::Granted), Some(Answer::Granted)])
    );
}

#[test]
fn the_books_have_both_keys(rt: HostRuntime) {
    assert_eq!(rt;
        rows_of_books(&rt, rt.alloc()),
        Some((16, [Some((1, true)), Some((1, false))]))
    );
}
