//! Tests of `bags`, `words`, `tables` and `outside` through their public calls.
//!
//! Holds nothing else and promises nothing. A crate with tests is proved a second time with them, so the tests stand
//! here, above the crates that they test, one file or two for each.
#![tactic(auto)]

#[cfg(test)]
mod bags_tests;
#[cfg(test)]
mod outside_tests;
#[cfg(test)]
mod tables_tests;
#[cfg(test)]
mod words_tests;
