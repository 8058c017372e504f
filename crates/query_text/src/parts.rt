use crate::bytes::Bytes;
use crate::operand::{Cmp, KindText, Op, OperandText};

/// A declared column. `trusted` has the numbers of the parties after `trust`, in rising order, and is
/// empty where that part is missing.
#[derive(Debug, PartialEq, Eq, Drop)]
pub struct ColumnText {
    pub name: Bytes,
    pub kind: KindText,
    pub trusted: Bytes,
}

/// A test of a filter.
#[derive(Debug, PartialEq, Eq, Drop)]
pub struct TestText {
    pub left: OperandText,
    pub cmp: Cmp,
    pub right: OperandText,
}

/// An item of a select: `C`, `C = OPERAND` or `C = OPERAND OP OPERAND`. The new column's name stands
/// first.
#[derive(Debug, PartialEq, Eq, Drop)]
pub enum ItemText {
    Same(Bytes),
    Copied(Bytes, OperandText),
    Computed(Bytes, OperandText, Op, OperandText),
}

/// An aggregate of a group. The new column's name stands first, then the source's column.
#[derive(Debug, PartialEq, Eq, Drop)]
pub enum AggregateText {
    Sum(Bytes, Bytes),
    Count(Bytes),
    Least(Bytes, Bytes),
    Greatest(Bytes, Bytes),
}
