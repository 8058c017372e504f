//! The operators of a query on tables of shared words, generic over the words.
//!
//! Stands on `wires` and `circuits` (words), `padded` (tables) and `plain_operators` (what an operator means), and for the
//! nodes of a graph on `query_graph` and `plain_meaning`. Each call makes wires by the trait's calls alone, so it serves
//! every implementation: no step list is needed.
//! Main promise, one record for all (`Makes`): the wires made, their lanes, the room for rows by the sizes of the
//! arguments alone, the width; and in each possible environment in which the arguments' valid words are 0 or 1, valid
//! words of 0 and 1 and valid rows that have the bag of the plain operator on the arguments' valid rows. AND words are
//! bounded by the sizes, and AND calls go by the logarithm of the rows. A node of a graph makes what its operator makes
//! (`MakesNode`).
#![tactic(auto)]

mod aggregate;
mod compare;
mod concat;
mod distinct;
mod filter;
mod firsts;
mod group;
mod join;
mod joint;
pub mod laws;
mod matched;
mod nodes;
mod numbers;
mod operand;
mod pairs;
mod seen;
mod select;
mod zeros;

pub use concat::joint_concat;
pub use distinct::joint_distinct;
pub use filter::filter_by;
pub use group::group_by;
pub use join::join_by;
pub use joint::Joint;
pub use nodes::{joint_filter, joint_group, joint_join, joint_node, joint_select};
pub use select::select_by;
pub use zeros::zeroed;
