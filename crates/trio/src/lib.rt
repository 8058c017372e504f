//! A run of three parties, each by its own core, whatever the order of their turns.
#![tactic(auto)]

mod laws;
mod making;
mod moves;
mod stepped;
mod trio;

pub use laws::{every_order_ends, moves_are_few, runs_go_on, runs_keep};
pub use stepped::Stepped;
pub use trio::Trio;
