//! Laws of graphs: what a query's graph says of each statement is what the statement writes.
//!
//! Stands on `query_text` and `query_graph`, and adds no code. Each law is said over the statements and the graph alone,
//! with names where the graph has numbers, so that an error in both the code of `query_graph` and its definition is refused
//! here.
#![tactic(auto)]

mod laws;

pub use laws::graphs_are_written;
