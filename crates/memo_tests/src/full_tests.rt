// A shard that has all the keys that it may have.
ghost use Rattle.std.specs.Prelude.{};
ghost use Rattle.memo_shared.specs.Shared.{IsOf, IsSame};

use crate::keys::key_in;
use crate::tables::{Answer, claimed, opened};
use memo_shared::{MemoPass, SharedMemo};
use std::alloc::{AllocError, Global};
use std::sync::Wait;

// What a pass is told of the key of a degree.
fn claimed_in(
    rt: &impl Wait,
    alloc: Global,
    memo: &SharedMemo,
    pass: &mut MemoPass,
    degree: u32,
) -> Answer
    requires { IsOf memo.now pass.old }
    ensures { IsOf memo.now pass.new × IsSame pass.old pass.new }
{
    match key_in(alloc, degree) {
        Ok(key) => claimed(rt, memo, pass, &key),
        Err(AllocError) => Answer::NoMemory,
    }
}

// Whether a pass gets the keys of so many degrees, which are all of one shard.
fn fills(
    rt: &impl Wait,
    alloc: Global,
    memo: &SharedMemo,
    pass: &mut MemoPass,
    degrees: u16,
) -> bool
    requires { IsOf memo.now pass.old }
    ensures { IsOf memo.now pass.new × IsSame pass.old pass.new }
{
    for i in 0..degrees {
        if claimed_in(rt, alloc, memo, pass, 16 * i as u32) != Answer::Granted {
            return false;
        }
    }
    true
}

// Behind 65,535 keys of a shard: the last that it may have, one more, one that it has, and one of another shard.
fn rows(rt: &impl Wait, alloc: Global) -> Option<(bool, [Answer; 4])> {
    let (memo, mut pass, _) = opened(alloc)?;
    let is_filled = fills(rt, alloc, &memo, &mut pass, u16::MAX);
    Some((
        is_filled,
        [
            claimed_in(rt, alloc, &memo, &mut pass, 16 * 65_535),
            claimed_in(rt, alloc, &memo, &mut pass, 16 * 65_536),
            claimed_in(rt, alloc, &memo, &mut pass, 16),
            claimed_in(rt, alloc, &memo, &mut pass, 1),
        ],
    ))
}

#[test]
fn a_full_shard_takes_no_new_key(rt: HostRuntime) {
    assert_eq!(rt;
        rows(&rt, rt.alloc()),
        Some((
            true,
            [
                Answer::Granted,
                Answer::Full(65_536),
                Answer::Granted,
                Answer::Granted,
            ],
        ))
    );
}
