// The parts of passes, dealt to a list for each shard.
ghost use Rattle.std.specs.Prelude.{◌≡◌, ◌<◌, ℕ, length, slice_get, vec_len, Some};
ghost use Rattle.turnstile.specs.Passes.{room_left};
ghost use Rattle.memo_shared.specs.Dealt.{AreDealt, EachGot, Got, HasRoom};

use crate::memo::MemoPass;
use crate::shard::Shard;
use turnstile::{Pass, PassList};

// Puts a part at the end of a list that has room for it.
fn put_part(list: &mut PassList<Shard>, part: Pass<Shard>)
    requires { 0 < room_left list.old }
    ensures { Got list.old part list.new }
{
    let Ok(()) = list.push(part) else {
        unreachable!()
    };
}

// Gives the list of each shard its part of a pass.
fn deal(lists: &mut Vec<PassList<Shard>>, mut parts: Vec<Pass<Shard>>)
    requires sized { vec_len lists.old ≡ vec_len parts }
    requires room { (place : ℕ) (l : _) → slice_get lists.old.items place ≡ Some l → 0 < room_left l }
    ensures { EachGot lists.old.items parts.items lists.new.items }
{
    while let Some(part) = parts.pop() {
        put_part(&mut lists[parts.len()], part);
    }
    parts.destroy_empty();
}

// Gives the list of each shard its parts of all passes.
pub(crate) fn deal_all(lists: &mut Vec<PassList<Shard>>, mut passes: Vec<MemoPass>)
    requires sized { vec_len lists.old ≡ 16 }
    requires room { (place : ℕ) (l : _) → slice_get lists.old.items place ≡ Some l → HasRoom (length passes.items) l }
    ensures sized { vec_len lists.new ≡ 16 }
    ensures dealt { AreDealt passes.items lists.new.items }
{
    while let Some(pass) = passes.pop() {
        let MemoPass {
            seat: _,
            made: _,
            parts,
        } = pass;
        deal(lists, parts);
    }
    passes.destroy_empty();
}
