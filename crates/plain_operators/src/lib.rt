//! The operators of a query, each as a function of its own on lists of rows with columns by number.
//!
//! Stands on `bags`. No name, graph, kind, owner, trust, place or bound is in them: the plain meaning of a node calls
//! them, and trust, push-down, clear tasks and joint operators are all compared with them. Definitions are in
//! `specs/`; a body on lent rows stands here for each operator.
//! Main promise: each body gives exactly the rows of its definition, in order; and the laws of `laws`, above all that
//! each operator gives the same bag for the same bags, and that rows cut into blocks of equal keys have as their group
//! one row for each block.
#![tactic(auto)]

mod aggregate;
mod cut;
mod distinct;
mod grouped;
mod item;
mod joined;
mod kept;
mod key_places;
pub mod laws;
mod limit;

pub use aggregate::Aggregate;
pub use cut::is_key;
pub use distinct::distinct_rows;
pub use grouped::{grouped_rows, whole_table_rows};
pub use item::{Comparison, Item, Operand, Operation, Test};
pub use joined::{joined_rows, left_keys, right_keys};
pub use kept::{kept_rows, rows_of_items};
pub use key_places::grouped_places;
