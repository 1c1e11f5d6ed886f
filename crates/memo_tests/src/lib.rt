//! Tests of the table of results in shards, from outside: what two passes tell of one table in turn, a shard that is full, the books of a
//! table that is closed, and keys forced over two desks of one table.
#![tactic(auto)]

#[cfg(test)]
mod desk_tests;
#[cfg(test)]
mod full_tests;
#[cfg(test)]
mod keys;
#[cfg(test)]
mod shared_tests;
#[cfg(test)]
mod tables;
