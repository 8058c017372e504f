//! Rows as lists of words, and how lists of rows compare: how often a row occurs, the same bag, the sorted list.
//!
//! Stands on no crate. Files, the plain meaning of a query, trust and the joint operators are all compared by these
//! words. Definitions are in `specs/`, generic in the element and its equality test; `laws` holds what is true of them,
//! and the lemmas of `proofs/` are public, so that crates above can cite them.
//! Main promise: two lists of rows have equal sorted lists exactly where each row occurs equally often in both, and
//! `sort_rows` computes that list.
#![tactic(auto)]

pub mod laws;
mod sort;

pub use sort::sort_rows;
