//! Tests of what reaches files, standard streams and threads, from outside: ports of each kind, and the lock with its passes.
#![tactic(auto)]

#[cfg(test)]
mod port_tests;
#[cfg(test)]
mod stream_tests;
#[cfg(test)]
mod turn_tests;
