//! Parts of statements with numbers for their names.
#![tactic(auto)]

ghost use Rattle.std.specs.Prelude.{◌≡◌, ◌<◌, ◌^◌, length, map, IfOk};
ghost use Rattle.query_graph.specs.Names.{column_number};
ghost use Rattle.query_graph.specs.Operators.{aggregate_of, item_of, operand_of, test_of, text_word};

use crate::operand::{Aggregate, Item, Operand, Test};
use crate::source::Source;
use query_text::{AggregateText, Bytes, ItemText, OperandText, TestText};
use std::alloc::{AllocError, Global};
use words::pack_text;

/// The number of the column with this name.
pub(crate) fn number(columns: &Source, name: &Bytes) -> u32
    requires { length columns.now < 2 ^ 32 }
    ensures { result ≡ column_number columns.now name.now }
{
    columns.number(name.bytes()) as u32
}

// The word of a constant text.
fn text_word(bytes: &Bytes) -> u64
    ensures { result ≡ text_word bytes.now }
{
    match pack_text(bytes.bytes()) {
        Ok(word) => word,
        Err(_) => 0,
    }
}

fn operand_of(columns: &Source, operand: &OperandText) -> Operand
    requires { length columns.now < 2 ^ 32 }
    ensures { result ≡ operand_of columns.now operand.now }
{
    match operand {
        OperandText::Name(name) => Operand::Column(number(columns, name)),
        OperandText::Number(word) => Operand::Constant(*word),
        OperandText::Quoted(bytes) => Operand::Constant(text_word(bytes)),
        OperandText::True => Operand::Constant(1),
        OperandText::False => Operand::Constant(0),
    }
}

fn test_of(columns: &Source, test: &TestText) -> Test
    requires { length columns.now < 2 ^ 32 }
    ensures { result ≡ test_of columns.now test.now }
{
    Test {
        left: operand_of(columns, &test.left),
        cmp: test.cmp,
        right: operand_of(columns, &test.right),
    }
}

fn item_of(columns: &Source, item: &ItemText) -> Item
    requires { length columns.now < 2 ^ 32 }
    ensures { result ≡ item_of columns.now item.now }
{
    match item {
        ItemText::Same(name) => Item::Plain(Operand::Column(number(columns, name))),
        ItemText::Copied(_, operand) => Item::Plain(operand_of(columns, operand)),
        ItemText::Computed(_, left, op, right) => Item::Computed {
            left: operand_of(columns, left),
            op: *op,
            right: operand_of(columns, right),
        },
    }
}

fn aggregate_of(columns: &Source, aggregate: &AggregateText) -> Aggregate
    requires { length columns.now < 2 ^ 32 }
    ensures { result ≡ aggregate_of columns.now aggregate.now }
{
    match aggregate {
        AggregateText::Sum(_, name) => Aggregate::Sum(number(columns, name)),
        AggregateText::Count(_) => Aggregate::Count,
        AggregateText::Least(_, name) => Aggregate::Least(number(columns, name)),
        AggregateText::Greatest(_, name) => Aggregate::Greatest(number(columns, name)),
    }
}

/// The tests over these columns.
pub(crate) fn tests_of(
    alloc: Global,
    columns: &Source,
    tests: &[TestText],
) -> Result<Vec<Test>, AllocError>
    requires { length columns.now < 2 ^ 32 }
    ensures { IfOk result (λ made. made.items ≡ map (test_of columns.now) tests.now) }
{
    tests
        .iter()
        .map(|test| test_of(columns, test))
        .collect(alloc)
}

/// The items over these columns.
pub(crate) fn items_of(
    alloc: Global,
    columns: &Source,
    items: &[ItemText],
) -> Result<Vec<Item>, AllocError>
    requires { length columns.now < 2 ^ 32 }
    ensures { IfOk result (λ made. made.items ≡ map (item_of columns.now) items.now) }
{
    items
        .iter()
        .map(|item| item_of(columns, item))
        .collect(alloc)
}

/// The aggregates over these columns.
pub(crate) fn aggregates_of(
    alloc: Global,
    columns: &Source,
    aggregates: &[AggregateText],
) -> Result<Vec<Aggregate>, AllocError>
    requires { length columns.now < 2 ^ 32 }
    ensures { IfOk result (λ made. made.items ≡ map (aggregate_of columns.now) aggregates.now) }
{
    aggregates
        .iter()
        .map(|aggregate| aggregate_of(columns, aggregate))
        .collect(alloc)
}

/// The numbers of columns with these names.
pub(crate) fn numbers_of(
    alloc: Global,
    columns: &Source,
    names: &[Bytes],
) -> Result<Vec<u32>, AllocError>
    requires { length columns.now < 2 ^ 32 }
    ensures { IfOk result (λ made. made.items ≡ map (column_number columns.now) names.now) }
{
    names
        .iter()
        .map(|name| number(columns, name))
        .collect(alloc)
}
