//! Generic words: a circuit is written once over the trait `Wires` and runs over each implementation.
//!
//! Stands on `lanes`. An environment gives each wire a list of words, one a lane; a state of a `Wires` tells
//! how many lanes each wire has, how many AND words were spent, and which environments are possible. The
//! main promise: each call makes one wire whose value, in every possible environment, is the lane-wise
//! operation on the values of its arguments, and earlier wires keep theirs. `Clear` computes values,
//! `Tally` counts.
#![tactic(auto)]

mod clear;
mod gates;
mod lane_words;
mod tally;
mod wire;

pub use clear::Clear;
pub use gates::Wires;
pub use tally::Tally;
pub use wire::Wire;
