//! What is worked where, as far as a graph alone says it: operators are pushed down to the parties' parts, and selects up
//! behind the opening.
//!
//! Stands on `query_graph`, `plain_meaning` and `trust_sets`. A rewriting is seen as the parts of each node, and whether
//! the node is up (`specs/Parts.antt`, `specs/Up.antt`). The main promises: `rewrite` gives exactly these, for every graph;
//! the rows of a node's parts, one after the other, are its plain rows, and `part_table` gives those of one part
//! (`specs/PartRows.antt`); what the recipient works out above an opened node is the node's rows, and tells the opened rows
//! (`specs/Opened.antt`).
#![tactic(auto)]

mod columns;
mod laws;
mod nodes;
mod part;
mod part_rows;
mod rewriting;
mod rewritten;
mod table;
mod up;
mod uses;

pub use laws::{
    nodes_have_parts, opened_by_sources, parts_add_up, parts_are_known, parts_are_rows,
    up_in_words, up_is_undone,
};
pub use part::{Part, PartPlace};
pub use rewriting::rewrite;
pub use rewritten::Rewritten;
pub use table::part_table;
