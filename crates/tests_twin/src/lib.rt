//! Tests of `twin` through its public call, by the task of `tests_steps`.
//!
//! Holds nothing else and promises nothing. A crate with tests is proved a second time with them, so the tests stand
//! here, above the crate that they test.
#![tactic(auto)]

#[cfg(test)]
mod alone_tests;
#[cfg(test)]
mod made;
#[cfg(test)]
mod random_lists;
#[cfg(test)]
mod random_tests;
#[cfg(test)]
mod random_worlds;
#[cfg(test)]
mod twin_tests;
#[cfg(test)]
mod worlds;
#[cfg(test)]
mod worlds_tests;
