//! Which kinds go together.
#![tactic(auto)]

ghost use Rattle.std.specs.Prelude.{◌≡◌};
ghost use Rattle.std.specs.List.{list_all};
ghost use Rattle.query_graph.specs.Names.{column_kind};
ghost use Rattle.query_graph.specs.Kinds.{aggregate_fits, item_fits, kinds_fit, operand_kind, result_kind, same_kind, takes, test_fits};

use crate::nodes::Nodes;
use crate::source::Source;
use query_text::{AggregateText, Body, Bytes, ItemText, Op, OperandText, TestText};
use words::Kind;

pub(crate) fn same_kind(left: Kind, right: Kind) -> bool
    ensures { result ≡ same_kind left right }
{
    match left {
        Kind::Num => matches!(right, Kind::Num),
        Kind::Text => matches!(right, Kind::Text),
        Kind::Flag => matches!(right, Kind::Flag),
    }
}

pub(crate) fn operand_kind(columns: &Source, operand: &OperandText) -> Kind
    ensures { result ≡ operand_kind columns.now operand.now }
{
    match operand {
        OperandText::Name(name) => columns.kind(name.bytes()),
        OperandText::Number(_) => Kind::Num,
        OperandText::Quoted(_) => Kind::Text,
        OperandText::True => Kind::Flag,
        OperandText::False => Kind::Flag,
    }
}

pub(crate) fn result_kind(op: Op) -> Kind
    ensures { result ≡ result_kind op }
{
    match op {
        Op::Compare(_) => Kind::Flag,
        Op::Add => Kind::Num,
        Op::Sub => Kind::Num,
        Op::Mul => Kind::Num,
        Op::And => Kind::Flag,
        Op::Or => Kind::Flag,
    }
}

// Whether an operation takes operands of these kinds.
fn takes(op: Op, left: Kind, right: Kind) -> bool
    ensures { result ≡ takes op left right }
{
    match op {
        Op::Compare(_) => same_kind(left, right),
        Op::Add => same_kind(left, Kind::Num) && same_kind(right, Kind::Num),
        Op::Sub => same_kind(left, Kind::Num) && same_kind(right, Kind::Num),
        Op::Mul => same_kind(left, Kind::Num) && same_kind(right, Kind::Num),
        Op::And => same_kind(left, Kind::Flag) && same_kind(right, Kind::Flag),
        Op::Or => same_kind(left, Kind::Flag) && same_kind(right, Kind::Flag),
    }
}

fn test_fits(columns: &Source, test: &TestText) -> bool
    ensures { result ≡ test_fits columns.now test.now }
{
    same_kind(
        operand_kind(columns, &test.left),
        operand_kind(columns, &test.right),
    )
}

fn item_fits(columns: &Source, item: &ItemText) -> bool
    ensures { result ≡ item_fits columns.now item.now }
{
    match item {
        ItemText::Same(_) => true,
        ItemText::Copied(_, _) => true,
        ItemText::Computed(_, left, op, right) => {
            takes(
                *op,
                operand_kind(columns, left),
                operand_kind(columns, right),
            )
        }
    }
}

fn aggregate_fits(columns: &Source, aggregate: &AggregateText) -> bool
    ensures { result ≡ aggregate_fits columns.now aggregate.now }
{
    match aggregate {
        AggregateText::Sum(_, name) => same_kind(columns.kind(name.bytes()), Kind::Num),
        AggregateText::Count(_) => true,
        AggregateText::Least(_, name) => !same_kind(columns.kind(name.bytes()), Kind::Flag),
        AggregateText::Greatest(_, name) => !same_kind(columns.kind(name.bytes()), Kind::Flag),
    }
}

// Whether a key has one kind on both sides.
fn key_fits(left: &Source, right: &Source, key: &Bytes) -> bool
    ensures { result ≡ same_kind (column_kind left.now key.now) (column_kind right.now key.now) }
{
    same_kind(left.kind(key.bytes()), right.kind(key.bytes()))
}

fn keys_fit(left: &Source, right: &Source, keys: &[Bytes]) -> bool
    ensures { result ≡ list_all (λ key. same_kind (column_kind left.now key) (column_kind right.now key)) keys.now }
{
    keys.iter().all(|key| key_fits(left, right, key))
}

/// Whether the kinds of a statement fit.
pub(crate) fn kinds_fit(nodes: &Nodes, body: &Body) -> bool
    ensures { result ≡ kinds_fit nodes.now body.now }
{
    match body {
        Body::Relation(_) => true,
        Body::Filter(f) => tests_fit(&nodes.source(&f.source), f.tests.as_slice()),
        Body::Select(s) => items_fit(&nodes.source(&s.source), s.items.as_slice()),
        Body::Concat(_) => true,
        Body::Join(j) => {
            let left = nodes.source(&j.left);
            let right = nodes.source(&j.right);
            keys_fit(&left, &right, j.keys.as_slice())
        }
        Body::Group(g) => aggregates_fit(&nodes.source(&g.source), g.aggregates.as_slice()),
        Body::Distinct(_) => true,
        Body::Output(_) => true,
    }
}

fn tests_fit(columns: &Source, tests: &[TestText]) -> bool
    ensures { result ≡ list_all (test_fits columns.now) tests.now }
{
    tests.iter().all(|test| test_fits(columns, test))
}

fn items_fit(columns: &Source, items: &[ItemText]) -> bool
    ensures { result ≡ list_all (item_fits columns.now) items.now }
{
    items.iter().all(|item| item_fits(columns, item))
}

fn aggregates_fit(columns: &Source, aggregates: &[AggregateText]) -> bool
    ensures { result ≡ list_all (aggregate_fits columns.now) aggregates.now }
{
    aggregates
        .iter()
        .all(|aggregate| aggregate_fits(columns, aggregate))
}
