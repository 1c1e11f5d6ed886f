//! Tests of the table of results, of the board that it is, and of the engine over it, from outside: events in turn, claims, publications,
//! releases and look-ups in turn, and keys forced over tables that know, are busy, or have no room.
#![tactic(auto)]

#[cfg(test)]
mod board_tests;
#[cfg(test)]
mod book_tests;
#[cfg(test)]
mod force_tests;
#[cfg(test)]
mod keys;
