//! Tests of the crates below, from outside: each call once with ample memory, and printed texts.
#![tactic(auto)]

#[cfg(test)]
mod allowed_tests;
#[cfg(test)]
mod answers;
#[cfg(test)]
mod cell_tests;
#[cfg(test)]
mod chain_tests;
#[cfg(test)]
mod circle_bundle;
#[cfg(test)]
mod edge;
#[cfg(test)]
mod holder_tests;
#[cfg(test)]
mod integer_tests;
#[cfg(test)]
mod number_tests;
#[cfg(test)]
mod perturbation_tests;
#[cfg(test)]
mod reduction_tests;
#[cfg(test)]
mod row_tests;
#[cfg(test)]
mod table_tests;
#[cfg(test)]
mod tables;
#[cfg(test)]
mod term_tests;
#[cfg(test)]
mod tiny;
#[cfg(test)]
mod twice_tests;
