ghost use Rattle.std.specs.Prelude.{◌≡◌, length};
ghost use Rattle.plain_operators.specs.Items.{compares, computed, holds_of, item_word, operand_word};
ghost use Rattle.plain_operators.specs.Within.{IsItemOf, IsOperandOf, IsTestOf};

/// A column of a row, by its number from 0, or a constant word.
#[derive(Clone, Copy, Debug, PartialEq, Eq)]
pub enum Operand {
    Column(u32),
    Constant(u64),
}

/// A comparison of two words.
#[derive(Clone, Copy, Debug, PartialEq, Eq)]
pub enum Comparison {
    Equal,
    Different,
    Less,
    LessOrEqual,
    Greater,
    GreaterOrEqual,
}

/// A test of a row.
#[derive(Clone, Copy, Debug, PartialEq, Eq)]
pub struct Test {
    pub left: Operand,
    pub comparison: Comparison,
    pub right: Operand,
}

/// An operation on two words: a comparison gives 1 where it holds and else 0; sums, differences and products are
/// modulo 2^64; `And` and `Or` go bit by bit.
#[derive(Clone, Copy, Debug, PartialEq, Eq)]
pub enum Operation {
    Compare(Comparison),
    Add,
    Subtract,
    Multiply,
    And,
    Or,
}

/// What a column of new rows is copied or computed from.
#[derive(Clone, Copy, Debug, PartialEq, Eq)]
pub enum Item {
    Plain(Operand),
    Computed {
        left: Operand,
        operation: Operation,
        right: Operand,
    },
}

impl Operand {
    // The word in a row.
    fn word(self, row: &[u64]) -> u64
        requires { IsOperandOf (length row.now) self }
        ensures { result ≡ operand_word self row.now }
    {
        match self {
            Operand::Column(column) => row[column as usize],
            Operand::Constant(word) => word,
        }
    }
}

impl Comparison {
    fn compares(self, left: u64, right: u64) -> bool
        ensures { result ≡ compares self left right }
    {
        match self {
            Comparison::Equal => left == right,
            Comparison::Different => left != right,
            Comparison::Less => left < right,
            Comparison::LessOrEqual => left <= right,
            Comparison::Greater => left > right,
            Comparison::GreaterOrEqual => left >= right,
        }
    }
}

impl Test {
    /// Whether the test holds of a row.
    pub fn holds_of(&self, row: &[u64]) -> bool
        requires { IsTestOf (length row.now) self.now }
        ensures { result ≡ holds_of self.now row.now }
    {
        self.comparison
            .compares(self.left.word(row), self.right.word(row))
    }
}

impl Operation {
    fn computed(self, left: u64, right: u64) -> u64
        ensures { result ≡ computed self left right }
    {
        match self {
            Operation::Compare(comparison) => u64::from(comparison.compares(left, right)),
            Operation::Add => left.wrapping_add(right),
            Operation::Subtract => left.wrapping_sub(right),
            Operation::Multiply => left.wrapping_mul(right),
            Operation::And => left & right,
            Operation::Or => left | right,
        }
    }
}

impl Item {
    /// The word of the new column in a row.
    pub fn word(&self, row: &[u64]) -> u64
        requires { IsItemOf (length row.now) self.now }
        ensures { result ≡ item_word self.now row.now }
    {
        match *self {
            Item::Plain(operand) => operand.word(row),
            Item::Computed {
                left,
                operation,
                right,
            } => operation.computed(left.word(row), right.word(row)),
        }
    }
}
