//! The twin of a tape: every view of a list of steps can be explained by another world.
#![tactic(auto)]

mod both;
mod change;
mod compare;
mod counts;
mod fault;
mod laws;
mod masked;
mod pass;
mod places;
mod reveal;
mod rows;
mod steer;
mod twin_tape;
mod worlds;

pub use fault::{Rows, TwinFault};
pub use laws::{twin_fits, twin_of_alike, twin_pairs, twins_differ};
pub use twin_tape::twin;
