//! Laws of tables: what is written is read back, and what is read, or refused, is what the file's records say.
//!
//! Stands on `words`, `bags` and `tables`, and adds no code. Each law is said over the definitions of reading and writing
//! in words of its own, so that an error in both the code and its definition is refused here.
#![tactic(auto)]

mod laws;

pub use laws::{
    answers_come_back, answers_tell_bags, faults_are_first, fields_come_back, files_are_tables,
};
