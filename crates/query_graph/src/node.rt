//! Nodes and outputs.

use crate::operator::Operator;
use crate::parties::Parties;
use listed::Listed;
use words::{Column, Label};

/// A node: its name, the line of its statement, its columns, how many rows it has at most, and what it
/// does.
#[derive(Debug, Drop)]
pub struct Node {
    pub name: Label,
    pub line: u32,
    pub columns: Listed<Column>,
    pub rows: u32,
    pub shape: Operator,
}

/// An output: the line of its statement, the number of its node, and who gets the rows.
#[derive(Clone, Copy, Debug, PartialEq, Eq)]
pub struct Output {
    pub line: u32,
    pub node: u32,
    pub recipients: Parties,
}
