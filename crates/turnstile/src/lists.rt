//! How a list of passes is made and read.
ghost use Rattle.std.specs.Prelude.{◌≡◌, ◌≤◌, ◌<◌, ◌+◌, [], ◌∷◌, ◌++◌, length, IfOk, OnOk, OnErr, Any, slice_get, slice_index_or};
ghost use Rattle.std.specs.Option.{option_copied};
ghost use Rattle.turnstile.specs.Passes.{number, passes as passes_of, room_left};

use crate::counted::Counted;
use crate::list::PassList;
use crate::pass::Pass;
use std::alloc::{AllocError, AllocFailed, Global};

impl<B: Counted> PassList<B> {
    /// No passes.
    pub fn new(alloc: Global) -> PassList<B>
        ensures { passes_of result ≡ [] }
    {
        PassList {
            items: Vec::new(alloc),
        }
    }

    /// No passes, and room for `n`: the first `n` pushes take no memory and are not refused.
    pub fn with_room(alloc: Global, n: u32) -> Result<PassList<B>, AllocError>
        ensures { IfOk result (λ l. (passes_of l ≡ []) × (n ≤ room_left l)) }
    {
        Ok(PassList {
            items: Vec::with_capacity(alloc, n as usize)?,
        })
    }

    /// Adds a pass at the end. A refusal comes only where no room was left; the list then stays,
    /// and the pass is lost.
    pub fn push(&mut self, pass: Pass<B>) -> Result<(), AllocError>
        ensures ok { OnOk result ((passes_of self.new ≡ passes_of self.old ++ pass ∷ []) × (room_left self.old ≤ room_left self.new + 1)) }
        ensures err { OnErr result ((passes_of self.new ≡ passes_of self.old) × (room_left self.old ≡ 0)) }
    {
        match self.items.push(pass) {
            Ok(()) => Ok(()),
            Err(failed) => {
                let AllocFailed { value } = failed;
                drop(value);
                Err(AllocError)
            }
        }
    }

    /// The pass at a place, counted from 0, if the list is longer than that.
    pub fn get(&self, i: usize) -> Option<&Pass<B>>
        ensures { option_copied result ≡ slice_get (passes_of self.now) i }
    {
        self.items.get(i)
    }

    /// The number of passes.
    pub fn len(&self) -> usize
        ensures { result ≡ length (passes_of self.now) }
    {
        self.items.len()
    }

    // The place of the first pass.
    pub(crate) fn first_place(&self) -> usize
        requires { Any (λ p. number p ≡ 0) (passes_of self.now) }
        ensures place { result < length (passes_of self.now) }
        ensures first { (p : _) → number (slice_index_or (passes_of self.now) result p) ≡ 0 }
    {
        let mut place = 0;
        while !self.items[place].is_first {
            place += 1;
        }
        place
    }
}
