//! Tests of `query_text`, `query_graph`, `plain_operators`, `plain_meaning`, `trust_sets`, `rewrites` and `places` through
//! their public calls.
//!
//! Holds nothing else and promises nothing. A crate with tests is proved a second time with them, so the tests stand
//! here, above the crates that they test, one file or two for each. `query_tokens` is tested through `query_text`.
#![tactic(auto)]

#[cfg(test)]
mod places_excess_tests;
#[cfg(test)]
mod places_script_tests;
#[cfg(test)]
mod places_tests;
#[cfg(test)]
mod plain_meaning_tests;
#[cfg(test)]
mod plain_operators_tests;
#[cfg(test)]
mod plan_text_tests;
#[cfg(test)]
mod query_graph_refusal_tests;
#[cfg(test)]
mod query_graph_tests;
#[cfg(test)]
mod query_text_print_tests;
#[cfg(test)]
mod query_text_tests;
#[cfg(test)]
mod rewrites_tests;
#[cfg(test)]
mod trust_sets_agree_tests;
#[cfg(test)]
mod trust_sets_tests;
