//! Path words of pairs: their events, their matching, their pairs.
#![tactic(auto)]

mod events;
mod laws;
mod word;

pub use events::{event_of, matched, pairs};
pub use laws::{matching_is_a_pairing, moves_gain_a_pair, steps_tell_the_word};
pub use word::{PathEvent, PathWord};
