ghost use Rattle.std.specs.Prelude.{◌≡◌};
ghost use Rattle.simp_ops.specs.PathWords.{source, target, event, matched, pairs};
ghost use Rattle.path_words.specs.Pairing.{partner};
ghost use Rattle.path_words.specs.Events.{steps, event_is};

use crate::word::{PathEvent, PathWord};

/// The first event of the word, read from the left.
pub fn event_of(w: &PathWord) -> PathEvent
    ensures { event_is result ≡ event (steps w.now) }
{
    // Bits from `len` on are 0, so there is a first step at which both parts move, `len` at most.
    let moving = (w.left.mask | w.right.mask).trailing_ones();
    let turn = (w.left.mask & w.right.mask >> 1).trailing_zeros();
    if turn < moving {
        PathEvent::Target(turn)
    } else if moving < w.len {
        PathEvent::Source(moving)
    } else {
        PathEvent::Critical
    }
}

/// The word that the vector field matches with it: of a source its target, of a target its source.
/// A critical word is its own.
pub fn matched(w: &PathWord) -> PathWord
    ensures word { steps result ≡ matched (steps w.now) }
    ensures event { event (steps result) ≡ partner (event (steps w.now)) }
    ensures back { matched (steps result) ≡ steps w.now }
{
    match event_of(w) {
        PathEvent::Source(j) => target_at(w, j),
        PathEvent::Target(j) => source_at(w, j),
        PathEvent::Critical => *w,
    }
}

/// The target of a source at place j: s_j of the left part and s_(j+1) of the right part.
fn target_at(w: &PathWord, j: u32) -> PathWord
    requires { event (steps w.now) ≡ source j }
    ensures { steps result ≡ matched (steps w.now) }
{
    PathWord {
        len: w.len + 1,
        left: w.left.with(j),
        right: w.right.with(j + 1),
    }
}

/// The source of a target at place j: its face j + 1.
fn source_at(w: &PathWord, j: u32) -> PathWord
    requires { event (steps w.now) ≡ target j }
    ensures { steps result ≡ matched (steps w.now) }
{
    PathWord {
        len: w.len - 1,
        left: w.left.without(j),
        right: w.right.without(j + 1),
    }
}

/// How many pairs there are of a step at which only the right part moves and a later one at which
/// only the left part does.
pub fn pairs(w: &PathWord) -> u32
    ensures { result ≡ pairs (steps w.now) }
{
    let mut count = 0;
    for j in 0..w.len {
        if w.right.has(j) {
            count += w.left.count_below(j);
        }
    }
    count
}
