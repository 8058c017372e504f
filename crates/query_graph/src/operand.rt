//! The parts of an operator, with numbers for the columns of its source.

use query_text::{Cmp, Op};

/// A column of the source, by its number, or a constant word.
#[derive(Clone, Copy, Debug, PartialEq, Eq)]
pub enum Operand {
    Column(u32),
    Constant(u64),
}

/// A test of a filter.
#[derive(Clone, Copy, Debug, PartialEq, Eq)]
pub struct Test {
    pub left: Operand,
    pub cmp: Cmp,
    pub right: Operand,
}

/// What a column of a select is computed from.
#[derive(Clone, Copy, Debug, PartialEq, Eq)]
pub enum Item {
    Plain(Operand),
    Computed {
        left: Operand,
        op: Op,
        right: Operand,
    },
}

/// What a column of a group is computed from: all rows with the same keys, or one column of these.
#[derive(Clone, Copy, Debug, PartialEq, Eq)]
pub enum Aggregate {
    Sum(u32),
    Count,
    Least(u32),
    Greatest(u32),
}
