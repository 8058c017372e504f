//! The parts of a graph's operators as those of operators on rows.
#![tactic(auto)]

ghost use Rattle.std.specs.Prelude.{◌≡◌, map, IfOk};
ghost use Rattle.plain_meaning.specs.Convert.{aggregate_of, comparison_of, item_of, operand_of, operation_of, test_of};

use plain_operators::{Aggregate, Comparison, Item, Operand, Operation, Test};
use query_text::{Cmp, Op};
use std::alloc::{AllocError, Global};

fn operand_of(operand: query_graph::Operand) -> Operand
    ensures { result ≡ operand_of operand }
{
    match operand {
        query_graph::Operand::Column(column) => Operand::Column(column),
        query_graph::Operand::Constant(word) => Operand::Constant(word),
    }
}

fn comparison_of(cmp: Cmp) -> Comparison
    ensures { result ≡ comparison_of cmp }
{
    match cmp {
        Cmp::Eq => Comparison::Equal,
        Cmp::Ne => Comparison::Different,
        Cmp::Lt => Comparison::Less,
        Cmp::Le => Comparison::LessOrEqual,
        Cmp::Gt => Comparison::Greater,
        Cmp::Ge => Comparison::GreaterOrEqual,
    }
}

fn test_of(test: &query_graph::Test) -> Test
    ensures { result ≡ test_of test.now }
{
    Test {
        left: operand_of(test.left),
        comparison: comparison_of(test.cmp),
        right: operand_of(test.right),
    }
}

fn operation_of(op: Op) -> Operation
    ensures { result ≡ operation_of op }
{
    match op {
        Op::Compare(cmp) => Operation::Compare(comparison_of(cmp)),
        Op::Add => Operation::Add,
        Op::Sub => Operation::Subtract,
        Op::Mul => Operation::Multiply,
        Op::And => Operation::And,
        Op::Or => Operation::Or,
    }
}

fn item_of(item: &query_graph::Item) -> Item
    ensures { result ≡ item_of item.now }
{
    match *item {
        query_graph::Item::Plain(operand) => Item::Plain(operand_of(operand)),
        query_graph::Item::Computed { left, op, right } => Item::Computed {
            left: operand_of(left),
            operation: operation_of(op),
            right: operand_of(right),
        },
    }
}

fn aggregate_of(aggregate: &query_graph::Aggregate) -> Aggregate
    ensures { result ≡ aggregate_of aggregate.now }
{
    match *aggregate {
        query_graph::Aggregate::Sum(column) => Aggregate::Sum(column),
        query_graph::Aggregate::Count => Aggregate::Count,
        query_graph::Aggregate::Least(column) => Aggregate::Least(column),
        query_graph::Aggregate::Greatest(column) => Aggregate::Greatest(column),
    }
}

/// The tests of a filter as tests of rows.
pub fn tests_of(alloc: Global, tests: &[query_graph::Test]) -> Result<Vec<Test>, AllocError>
    ensures { IfOk result (λ made. made.items ≡ map test_of tests.now) }
{
    tests.iter().map(|test| test_of(test)).collect(alloc)
}

/// The items of a select as items of rows.
pub fn items_of(alloc: Global, items: &[query_graph::Item]) -> Result<Vec<Item>, AllocError>
    ensures { IfOk result (λ made. made.items ≡ map item_of items.now) }
{
    items.iter().map(|item| item_of(item)).collect(alloc)
}

/// The aggregates of a group as aggregates of rows.
pub fn aggregates_of(
    alloc: Global,
    aggregates: &[query_graph::Aggregate],
) -> Result<Vec<Aggregate>, AllocError>
    ensures { IfOk result (λ made. made.items ≡ map aggregate_of aggregates.now) }
{
    aggregates
        .iter()
        .map(|aggregate| aggregate_of(aggregate))
        .collect(alloc)
}
