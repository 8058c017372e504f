use crate::bytes::Bytes;
use crate::parts::{AggregateText, ColumnText, ItemText, TestText};
use listed::Listed;

/// `relation N of P rows K ( COLUMN {, COLUMN} ) [release PS]`. `release` has the numbers of the
/// parties in rising order, and is empty where that part is missing.
#[derive(Debug, PartialEq, Eq, Drop)]
pub struct RelationText {
    pub name: Bytes,
    pub owner: u8,
    pub rows: u64,
    pub columns: Listed<ColumnText>,
    pub release: Bytes,
}

/// `N = filter S where TEST {and TEST} [at most K] [clear at P]`.
#[derive(Debug, PartialEq, Eq, Drop)]
pub struct FilterText {
    pub name: Bytes,
    pub source: Bytes,
    pub tests: Listed<TestText>,
    pub at_most: Option<u64>,
    pub clear_at: Option<u8>,
}

/// `N = select S ( ITEM {, ITEM} ) [clear at P]`.
#[derive(Debug, PartialEq, Eq, Drop)]
pub struct SelectText {
    pub name: Bytes,
    pub source: Bytes,
    pub items: Listed<ItemText>,
    pub clear_at: Option<u8>,
}

/// `N = concat S S {S}`, with two to eight sources.
#[derive(Debug, PartialEq, Eq, Drop)]
pub struct ConcatText {
    pub name: Bytes,
    pub sources: Listed<Bytes>,
}

/// `N = join S S on C {, C} [at most K] [via P | clear at P]`.
#[derive(Debug, PartialEq, Eq, Drop)]
pub struct JoinText {
    pub name: Bytes,
    pub left: Bytes,
    pub right: Bytes,
    pub keys: Listed<Bytes>,
    pub at_most: Option<u64>,
    pub via: Option<u8>,
    pub clear_at: Option<u8>,
}

/// `N = group S [by C {, C}] ( AGGREGATE {, AGGREGATE} ) [parts at most K] [at most K]
/// [via P | clear at P]`. `keys` is empty where that part is missing.
#[derive(Debug, PartialEq, Eq, Drop)]
pub struct GroupText {
    pub name: Bytes,
    pub source: Bytes,
    pub keys: Listed<Bytes>,
    pub aggregates: Listed<AggregateText>,
    pub parts_at_most: Option<u64>,
    pub at_most: Option<u64>,
    pub via: Option<u8>,
    pub clear_at: Option<u8>,
}

/// `N = distinct S [at most K] [clear at P]`.
#[derive(Debug, PartialEq, Eq, Drop)]
pub struct DistinctText {
    pub name: Bytes,
    pub source: Bytes,
    pub at_most: Option<u64>,
    pub clear_at: Option<u8>,
}

/// `output N to PS`, with the numbers of the parties in rising order.
#[derive(Debug, PartialEq, Eq, Drop)]
pub struct OutputText {
    pub node: Bytes,
    pub recipients: Bytes,
}

/// What a statement says.
#[derive(Debug, PartialEq, Eq, Drop)]
pub enum Body {
    Relation(RelationText),
    Filter(FilterText),
    Select(SelectText),
    Concat(ConcatText),
    Join(JoinText),
    Group(GroupText),
    Distinct(DistinctText),
    Output(OutputText),
}

/// A statement and the line that it stands on, from 1.
#[derive(Debug, PartialEq, Eq, Drop)]
pub struct Statement {
    pub line: u32,
    pub body: Body,
}
