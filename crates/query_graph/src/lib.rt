//! The graph of a query: its statements with numbers for names, columns with kinds, and declared rows.
//!
//! Stands on words and query_text. A graph is seen as its nodes, in the order of the text, and its
//! outputs; a set of parties as which of the three it has. The main promise: `build` answers exactly the
//! graph of a query's statements, or the first rule that one of them breaks (`specs/Build.antt`); every
//! graph goes back to its statements (`specs/Statements.antt`) and has numbers that fit (`specs/IsGraph.antt`).
#![tactic(auto)]

mod builder;
mod columns;
mod draft;
mod fault;
mod flag;
mod graph;
mod kinds;
mod laws;
mod members;
mod names;
mod node;
mod nodes;
mod numbers;
mod observers;
mod operand;
mod operator;
mod operators;
mod parties;
mod rules;
mod shapes;
mod sizes;
mod source;
mod taken;
mod used;

pub use builder::build;
pub use fault::GraphFault;
pub use flag::Flag;
pub use graph::Graph;
pub use laws::{names_are_numbers, texts_have_graphs};
pub use members::members_are_listed;
pub use node::{Node, Output};
pub use observers::{bounds_make_smaller, nodes_are_written, nodes_have_sizes};
pub use operand::{Aggregate, Item, Operand, Test};
pub use operator::{Concat, Distinct, Filter, Group, Join, Operator, Relation, Select};
pub use parties::{Parties, sets_by_members};
