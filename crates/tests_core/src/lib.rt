//! Tests of `party_core` through its public calls.
//!
//! Holds nothing else and promises nothing. A crate with tests is proved a second time with them, so the tests stand
//! here, above the crate that they test.
#![tactic(auto)]

#[cfg(test)]
mod core_tests;
