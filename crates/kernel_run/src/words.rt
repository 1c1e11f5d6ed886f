// The forms of words.
ghost use Rattle.std.specs.Prelude.{◌≡◌, ◌+◌, ◌<◌, ◌&&◌, [], length, drop, not, slice_index_or};
ghost use Rattle.kernel_run.specs.Counts.{is_empty};
ghost use Rattle.kernel_run.specs.Words.{is_session, is_batch, are_names, stands_in};

use port_io::WordList;

/// The most sessions that a batch has.
const MOST_SESSIONS: usize = 64;

/// Whether the words ask for one session.
pub(crate) fn is_session(words: &WordList) -> bool
    ensures { result ≡ is_session words.now }
{
    words.len() == 1 && words.get(0).is_some_and(|word| word.as_str() == "session")
}

/// Whether the words ask for a batch of sessions.
pub(crate) fn is_batch(words: &WordList) -> bool
    ensures { result ≡ is_batch words.now }
{
    if words.len() < 2 {
        return false;
    }
    if words.len() > 1 + MOST_SESSIONS {
        return false;
    }
    if word_at(words, 0) != "batch" {
        return false;
    }
    are_names(words)
}

/// The word at a place, counted from 0.
pub(crate) fn word_at(words: &WordList, i: usize) -> &str
    requires { i < length words.now }
    ensures { result.now ≡ slice_index_or words.now i [] }
{
    match words.get(i) {
        Some(word) => word.as_str(),
        None => "",
    }
}

// Whether none of the words behind the first is empty, and all of them are different.
fn are_names(words: &WordList) -> bool
    ensures { result ≡ are_names (drop 1 words.now) }
{
    for i in 1..words.len() {
        let word = word_at(words, i);
        if word.is_empty() {
            return false;
        }
        if stands_behind(words, i + 1, word) {
            return false;
        }
    }
    true
}

// Whether the word is one of those from a place on.
fn stands_behind(words: &WordList, from: usize, word: &str) -> bool
    ensures { result ≡ stands_in word.now (drop from words.now) }
{
    for k in from..words.len() {
        if word == word_at(words, k) {
            return true;
        }
    }
    false
}
