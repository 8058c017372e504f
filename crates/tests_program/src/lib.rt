//! Tests of `conclave_top` through its public calls, over folders and streams in memory.
//!
//! Holds nothing else and promises nothing. A crate with tests is proved a second time with them, so the tests stand
//! here, above the crate that they test.
#![tactic(auto)]

#[cfg(test)]
mod conclave_top_audit_tests;
#[cfg(test)]
mod conclave_top_fault_tests;
#[cfg(test)]
mod conclave_top_plan_tests;
#[cfg(test)]
mod conclave_top_random_tests;
#[cfg(test)]
mod conclave_top_run_tests;
#[cfg(test)]
mod conclave_top_tape_tests;
#[cfg(test)]
mod conclave_top_tests;
#[cfg(test)]
mod runs;
