//! Tests of `lanes`, `tapes`, `wires` and `circuits` through their public calls.
//!
//! Holds nothing else and promises nothing. A crate with tests is proved a second time with them, so the tests stand
//! here, above the crates that they test, one file or more for each.
#![tactic(auto)]

#[cfg(test)]
mod circuits_block_tests;
#[cfg(test)]
mod circuits_count_tests;
#[cfg(test)]
mod circuits_run_tests;
#[cfg(test)]
mod circuits_tests;
#[cfg(test)]
mod each_circuit;
#[cfg(test)]
mod lanes_tests;
#[cfg(test)]
mod orders_tests;
#[cfg(test)]
mod tapes_draws_tests;
#[cfg(test)]
mod tapes_tests;
#[cfg(test)]
mod wires_tests;
