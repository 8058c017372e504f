//! Tables: columns and rows of words, how a file is read as one, and how an answer is written.
//!
//! Stands on `words` for the meaning of a field, on `bags` and on the kit's `csv` for records. A table is seen as its
//! columns and its list of rows, each as long as the columns. The main promise: `read_table` answers
//! exactly the table that a file's records are under a declaration, or the first reason why they are none,
//! and `answer_text` the text of a table, a function of its columns and of the bag of its rows.
#![tactic(auto)]

mod answer;
mod fault;
mod file;
mod reading;
mod row;
mod table;

pub use answer::{answer_text, answers_of_equal_bags};
pub use fault::{TableFault, fault_text};
pub use file::{read_table, read_tables_fit};
pub use table::Table;
