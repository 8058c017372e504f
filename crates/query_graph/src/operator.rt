//! What a node does, with numbers for its sources and for their columns. Both count from 0.

use crate::operand::{Aggregate, Item, Test};
use crate::parties::Parties;
use listed::Listed;

/// The rows of a file of the owner. `trusted` has the parties that the text trusts with each column, and
/// `release` those that it writes after `release`; where a part is missing, its set has no party.
#[derive(Debug, PartialEq, Eq, Drop)]
pub struct Relation {
    pub owner: u8,
    pub trusted: Listed<Parties>,
    pub release: Parties,
}

/// The rows of the source for which every test holds.
#[derive(Debug, PartialEq, Eq, Drop)]
pub struct Filter {
    pub source: u32,
    pub tests: Listed<Test>,
    pub at_most: Option<u32>,
    pub clear_at: Option<u8>,
}

/// Each row of the source replaced by the items.
#[derive(Debug, PartialEq, Eq, Drop)]
pub struct Select {
    pub source: u32,
    pub items: Listed<Item>,
    pub clear_at: Option<u8>,
}

/// The rows of the sources, one source after the other.
#[derive(Debug, PartialEq, Eq, Drop)]
pub struct Concat {
    pub sources: Listed<u32>,
}

/// A row for each pair of rows with equal keys: the keys, the left's other columns, the right's other
/// columns. A key is its number on the left and on the right.
#[derive(Debug, PartialEq, Eq, Drop)]
pub struct Join {
    pub left: u32,
    pub right: u32,
    pub keys: Listed<(u32, u32)>,
    pub at_most: Option<u32>,
    pub via: Option<u8>,
    pub clear_at: Option<u8>,
}

/// A row for each list of keys that occurs: the keys, then the aggregates.
#[derive(Debug, PartialEq, Eq, Drop)]
pub struct Group {
    pub source: u32,
    pub keys: Listed<u32>,
    pub aggregates: Listed<Aggregate>,
    pub parts_at_most: Option<u32>,
    pub at_most: Option<u32>,
    pub via: Option<u8>,
    pub clear_at: Option<u8>,
}

/// Each row of the source once.
#[derive(Debug, PartialEq, Eq, Drop)]
pub struct Distinct {
    pub source: u32,
    pub at_most: Option<u32>,
    pub clear_at: Option<u8>,
}

/// What a node does.
#[derive(Debug, PartialEq, Eq, Drop)]
pub enum Operator {
    Relation(Relation),
    Filter(Filter),
    Select(Select),
    Concat(Concat),
    Join(Join),
    Group(Group),
    Distinct(Distinct),
}
