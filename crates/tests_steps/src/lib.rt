//! Tests of `step_lists` and `joint_machine` through their public calls, by a task of the tests' own.
//!
//! Holds nothing else and promises nothing. A crate with tests is proved a second time with them, so the tests stand
//! here, above the crates that they test.
#![tactic(auto)]

#[cfg(test)]
mod joint_machine_tests;
#[cfg(test)]
mod joint_script_tests;
#[cfg(test)]
mod list_tests;
#[cfg(test)]
mod made;
#[cfg(test)]
mod rule_tests;
mod test_task;

pub use test_task::TestTask;
