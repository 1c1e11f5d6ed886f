// A table with two passes, and what a pass is told there.
ghost use Rattle.std.specs.Prelude.{◌≡◌, [], ℕ, IfSome};
ghost use Rattle.memo_shared.specs.Shared.{fronts_of, made_of, seat_of, IsOf, IsSame};

use memo_shared::{MemoPass, SharedMemo, shared_memo};
use oracle_iface::{Claim, Key};
use seqs::Arc;
use std::alloc::{AllocError, Global};
use std::sync::Wait;

/// A new table with its passes of seats 0 and 1.
pub fn opened(alloc: Global) -> Option<(SharedMemo, MemoPass, MemoPass)>
    ensures passes { IfSome result (λ t. IsOf t.0 t.1 × IsOf t.0 t.2) }
    ensures seats { IfSome result (λ t. (seat_of t.1 ≡ 0) × (made_of t.1 ≡ 2) × (seat_of t.2 ≡ 1)) }
    ensures fronts { IfSome result (λ t. (shard : ℕ) → (fronts_of t.1 shard ≡ []) × (fronts_of t.2 shard ≡ [])) }
{
    let (memo, mut one) = shared_memo(alloc).ok()?;
    let two = memo.seat(alloc, &mut one).ok()?;
    Some((memo, one, two))
}

/// What a pass is told when it claims a key.
#[derive(Clone, Copy, Debug, PartialEq, Eq)]
pub enum Answer {
    Granted,
    Present,
    Busy(u32),
    Full(u32),
    NoMemory,
}

/// What a pass is told when it claims a key. One that it gets it gives back.
pub fn claimed(rt: &impl Wait, memo: &SharedMemo, pass: &mut MemoPass, key: &Arc<Key>) -> Answer
    requires { IsOf memo.now pass.old }
    ensures { IsOf memo.now pass.new × IsSame pass.old pass.new }
{
    match memo.claim(rt, pass, key) {
        Ok(Claim::Granted(ticket)) => {
            memo.release(rt, pass, ticket);
            Answer::Granted
        }
        Ok(Claim::Present(_)) => Answer::Present,
        Ok(Claim::Busy(seat)) => Answer::Busy(seat),
        Ok(Claim::Full(keys)) => Answer::Full(keys),
        Err(AllocError) => Answer::NoMemory,
    }
}

/// Whether a pass finds the cell of a key.
pub fn finds(rt: &impl Wait, memo: &SharedMemo, pass: &mut MemoPass, key: &Arc<Key>) -> bool
    requires { IsOf memo.now pass.old }
    ensures { IsOf memo.now pass.new × IsSame pass.old pass.new }
{
    match memo.look(rt, pass, key) {
        Ok(found) => found.is_some(),
        Err(AllocError) => false,
    }
}

/// What a pass is told of a key, by a claim and by a look-up.
pub type Told = (Answer, bool);

/// What a pass is told of a key.
pub fn told(rt: &impl Wait, memo: &SharedMemo, pass: &mut MemoPass, key: &Arc<Key>) -> Told
    requires { IsOf memo.now pass.old }
    ensures { IsOf memo.now pass.new × IsSame pass.old pass.new }
{
    let answer = claimed(rt, memo, pass, key);
    (answer, finds(rt, memo, pass, key))
}
