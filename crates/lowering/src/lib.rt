//! The compiler: from a query's text to one list of steps, the first slots of a world, and the answers in the slots of a
//! run.
//!
//! Stands on `query_graph`, `trust_sets` and `plain_meaning` for what a query is and means, on `shared_ops` and `emit` for
//! circuits over a list, and on `step_lists` and `clear_tasks`. Every relation is shared by its owner where it is used,
//! every other node is worked on shares, and each output is zeroed and opened to each of its recipients.
//! Main promise (`specs/Compiled.antt`): a text is refused exactly by the first rule that fails; else its plan is correct
//! for every world and all tapes, shows no party more than its answers, is isolated (`specs/Isolated.antt`), and keeps to
//! the shared cost.
#![tactic(auto)]

mod accept;
mod answer;
mod compiler;
mod cost;
mod fault;
mod first;
pub mod laws;
pub mod lines;
mod loading;
mod lower;
mod open;
mod plan;
mod push;
mod refusal;
mod share;
mod stored;
mod unbuilt;
mod work;

pub use answer::answer_table;
pub use compiler::compile;
pub use fault::{CompileFault, Refusal};
pub use loading::load;
pub use plan::Plan;
pub use refusal::refusal_text;
