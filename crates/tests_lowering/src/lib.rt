//! Tests of `lowering` through its public calls, run by `joint_machine` and compared with `plain_meaning`.
//!
//! Holds nothing else and promises nothing. A crate with tests is proved a second time with them, so the tests stand
//! here, above the crate that they test.
#![tactic(auto)]

#[cfg(test)]
mod compile_tests;
#[cfg(test)]
mod refusal_tests;
#[cfg(test)]
mod runs;
