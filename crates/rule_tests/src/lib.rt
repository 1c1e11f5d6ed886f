//! Tests of the rules, from outside: what keys come to, while the lines of a session ask for them.
#![tactic(auto)]

#[cfg(test)]
mod answers;
#[cfg(test)]
mod past_keys;
#[cfg(test)]
mod published;
#[cfg(test)]
mod texts;
#[cfg(test)]
mod value_tests;
