use crate::bytes::Bytes;

/// The written kind of a column.
#[derive(Clone, Copy, Debug, PartialEq, Eq)]
pub enum KindText {
    Num,
    Text,
}

/// A comparison of two operands.
#[derive(Clone, Copy, Debug, PartialEq, Eq)]
pub enum Cmp {
    Eq,
    Ne,
    Lt,
    Le,
    Gt,
    Ge,
}

/// What a computed item does with its two operands.
#[derive(Clone, Copy, Debug, PartialEq, Eq)]
pub enum Op {
    Compare(Cmp),
    Add,
    Sub,
    Mul,
    And,
    Or,
}

/// A written operand: a column's name or a constant. A quoted text stands without its quotes.
#[derive(Debug, PartialEq, Eq, Drop)]
pub enum OperandText {
    Name(Bytes),
    Number(u64),
    Quoted(Bytes),
    True,
    False,
}
