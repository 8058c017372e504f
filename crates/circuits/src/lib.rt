//! Circuits over generic words: comparison, arithmetic, choice, runs of lanes and folds of blocks.
//!
//! Stands on `wires` for the trait and on `lanes` for the laws of words. Each circuit is written once and
//! proved from the trait's laws alone. The main promise: in every possible environment a circuit's value is
//! the numeric function of the values of its arguments, lane by lane, at no more AND words than stated.
#![tactic(auto)]

mod bits;
mod block_lanes;
mod blocks;
mod carry_save;
mod choice;
mod copies;
mod equality;
mod fold_laws;
mod folds;
mod halves;
mod laws;
mod places;
mod prefix;
mod products;
mod run_flags;
mod runs;
mod sums;

pub use bits::or;
pub use blocks::fold_blocks;
pub use choice::{greatest, least, mux};
pub use copies::run_copies;
pub use equality::eq;
pub use fold_laws::folds_from_neutral;
pub use folds::{Fold, combine, masked};
pub use laws::{folds_are_lawful, runs_of_blocks, runs_of_one_block};
pub use products::mul;
pub use runs::{run_folds, run_sums};
pub use sums::{add, lt, sub};
