//! Tests of `padded` and `shared_ops` through their public calls.
//!
//! Holds nothing else and promises nothing. A crate with tests is proved a second time with them, so the tests stand
//! here, above the crates that they test. `small_tables` has what they share.
#![tactic(auto)]

#[cfg(test)]
mod cost_tests;
#[cfg(test)]
mod filter_tests;
#[cfg(test)]
mod group_tests;
#[cfg(test)]
mod node_tests;
#[cfg(test)]
mod padded_tests;
#[cfg(test)]
mod random_tests;
#[cfg(test)]
mod select_join_tests;
#[cfg(test)]
mod small_tables;
