//! Tests of the kernel's top call, from outside: sessions and batches over memory ports, with failing reads and writes, and sessions over one
//! table of results.
#![tactic(auto)]

#[cfg(test)]
mod batch_tests;
#[cfg(test)]
mod examples;
#[cfg(test)]
mod meeting;
#[cfg(test)]
mod session_tests;
#[cfg(test)]
mod sides;
#[cfg(test)]
mod table_tests;
