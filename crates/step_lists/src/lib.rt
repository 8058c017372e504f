//! Lists of steps that three parties carry out on shared words, and what such a list means.
#![tactic(auto)]

pub mod laws;
mod layout;
mod needs;
mod rules;
mod slots;
mod step;
mod step_list;
mod task;

pub use needs::list_needs;
pub use slots::Slots;
pub use step::{LinOp, Shape, Step};
pub use step_list::{ListFault, StepList};
pub use task::Task;
