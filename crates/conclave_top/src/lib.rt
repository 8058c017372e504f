//! The commands of the program, over any folder and streams that are handed in.
//!
//! Stands on the query's crates, `plain_meaning`, `trust_sets`, `lowering`, `joint_machine`, `twin`, `tapes`, `tables` and
//! `outside`. The folder and the streams are seen as what they tell: files, calls, bytes, and counts of faults. The main promise stands on `conclave`: what each
//! status says of the words, the files, the names called and the bytes written. A command is a case of it: the jobs that
//! it has on its query, each with what is due. The laws say that each status comes exactly where it is due, and what a
//! run leaves as it was.
#![tactic(auto)]

mod answer_files;
mod answers;
mod audit;
mod bounds;
mod command;
mod compile;
mod deliver;
mod end;
mod finish;
mod laws;
mod lines;
mod party_files;
mod plain;
mod plan;
mod plan_text;
mod plans;
mod relations;
mod run;
mod run_files;
mod tape;
mod tapes_of;
mod twins;
mod views;
mod with;
mod worlds;

pub use command::conclave;
pub use laws::{
    leaves_the_rest, one_due, one_job, reads_come_first, ready_is_done, some_due,
    statuses_are_exact, taken_is_planned, with_a_plan,
};
pub use with::conclave_with;
