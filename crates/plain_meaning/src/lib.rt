//! The plain meaning of a query: what the pooled files say, with no owner, trust, place or bound.
//!
//! Stands on `query_graph`, `plain_operators` and `tables`. `specs/Meaning.antt` gives the rows of each node by one
//! recursion over the nodes, which calls the operators on lists of rows. A world is seen as its tables, one for each
//! relation, in the order of the text.
//! Main promise: `plain` gives exactly the rows of each node, in order, up to the first node with more rows than its
//! `at most`, which it names; of no node it lists more than one row above its bound.
#![tactic(auto)]

mod convert;
pub mod laws;
mod made;
mod node;
mod rows;
mod walk;
mod world;

pub use convert::{aggregates_of, items_of, tests_of};
pub use walk::{PlainRows, plain};
pub use world::World;
