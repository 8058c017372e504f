//! Tests of `emit` and `clear_tasks` through their public calls, run by `joint_machine`: circuits, shared operators and
//! tasks as lists.
//!
//! Holds nothing else and promises nothing. A crate with tests is proved a second time with them, so the tests stand
//! here, above the crates that they test.
#![tactic(auto)]

#[cfg(test)]
mod clear_tasks_tests;
#[cfg(test)]
mod emit_tests;
#[cfg(test)]
mod lists;
#[cfg(test)]
mod operators_tests;
pub mod pieces;
