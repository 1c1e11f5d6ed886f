//! Tests of sessions, from outside: lines that are typed, and the replies to them.
#![tactic(auto)]

#[cfg(test)]
mod line_tests;
#[cfg(test)]
mod no_memory;
#[cfg(test)]
mod transcripts;
