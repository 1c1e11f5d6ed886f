// How a table and its passes are made.
ghost use Rattle.std.specs.Prelude.{◌≡◌, ◌+◌, ◌<◌, [], ℕ, IfOk, OnErr};
ghost use Rattle.turnstile.specs.Passes.{front, number, made, IsOutside, IsPassOf};
ghost use Rattle.memo_shared.specs.Shared.{fronts_of, made_of, seat_of, IsOf, IsFresh, IsSplit};

use crate::memo::{MemoPass, SharedMemo};
use crate::places::SHARDS;
use crate::shard::Shard;
use memo_book::new_book;
use std::alloc::{AllocError, Global};
use turnstile::{Pass, Turnstile, new_turnstile};

// An empty book behind a turnstile, with the first part.
fn new_shard(alloc: Global) -> Result<(Turnstile<Shard>, Pass<Shard>), AllocError>
    ensures { IfOk result (λ t. IsFresh t.0 t.1) }
{
    let shard = Shard {
        book: new_book(alloc),
    };
    match new_turnstile(alloc, shard) {
        Ok(made) => Ok(made),
        Err(shard) => {
            drop(shard);
            Err(AllocError)
        }
    }
}

/// A table of sixteen empty books, and its first pass, which has seat 0 and has seen nothing. The books will grow with memory from `alloc`.
pub fn shared_memo(alloc: Global) -> Result<(SharedMemo, MemoPass), AllocError>
    ensures pass { IfOk result (λ m. IsOf m.0 m.1) }
    ensures first { IfOk result (λ m. (seat_of m.1 ≡ 0) × (made_of m.1 ≡ 1)) }
    ensures fronts { IfOk result (λ m. (shard : ℕ) → fronts_of m.1 shard ≡ []) }
{
    let mut shards = Vec::with_capacity(alloc, SHARDS)?;
    let mut parts = Vec::with_capacity(alloc, SHARDS)?;
    for _round in 0..SHARDS {
        let (shard, part) = new_shard(alloc)?;
        shards.push_reserved(shard);
        parts.push_reserved(part);
    }
    Ok((
        SharedMemo { shards },
        MemoPass {
            seat: 0,
            made: 1,
            parts,
        },
    ))
}

// One more part of a shard.
fn split_part(shard: &Turnstile<Shard>, part: &mut Pass<Shard>) -> Pass<Shard>
    requires shard { IsPassOf shard.now part.old × IsOutside part.old }
    requires first { (number part.old ≡ 0) × (made part.old < 65536) }
    ensures { IsSplit shard.now part.old part.new result }
{
    let Ok(new) = shard.split(part) else {
        unreachable!()
    };
    new
}

impl SharedMemo {
    /// One more pass, by the first one. Its seat is how many passes were made before, and it has seen what the first one has. All memory is
    /// taken first; where there is none, the first pass stays as it was.
    pub fn seat(&self, alloc: Global, pass: &mut MemoPass) -> Result<MemoPass, AllocError>
        requires pass { IsOf self.now pass.old }
        requires first { (seat_of pass.old ≡ 0) × (made_of pass.old < 64) }
        ensures pass { IfOk result (λ p. IsOf self.now p × IsOf self.now pass.new) }
        ensures new { IfOk result (λ p. (seat_of p ≡ made_of pass.old) × (made_of p ≡ 0)) }
        ensures first { IfOk result (λ p. (seat_of pass.new ≡ 0) × (made_of pass.new ≡ made_of pass.old + 1)) }
        ensures fronts { IfOk result (λ p. (shard : ℕ) → (fronts_of p shard ≡ fronts_of pass.old shard) × (fronts_of pass.new shard ≡ fronts_of pass.old shard)) }
        ensures err { OnErr result (pass.new ≡ pass.old) }
    {
        let mut parts = Vec::with_capacity(alloc, SHARDS)?;
        for place in 0..SHARDS {
            parts.push_reserved(split_part(&self.shards[place], &mut pass.parts[place]));
        }
        let seat = pass.made;
        pass.made += 1;
        Ok(MemoPass {
            seat,
            made: 0,
            parts,
        })
    }
}
