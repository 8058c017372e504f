//! What a party computes alone, from words that it knows.
//!
//! Stands on `padded` and `step_lists`. Each kind of task is a variant of `ClearTask` with a file of its own, here and in
//! `specs/`: the shapes that it takes and gives, the exact function of the words, and that the words that are given have
//! their shapes. Main promise: a task gives exactly the words of its definition.
#![tactic(auto)]

pub mod laws;
mod shapes;
mod sorted;
mod task;

pub use task::ClearTask;
