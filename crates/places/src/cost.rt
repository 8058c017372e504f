//! The most AND words of a node.
#![tactic(auto)]

ghost use Rattle.std.specs.Prelude.{◌≡◌, ◌+◌, ◌*◌, ◌^◌, ◌<◌, ◌≤◌, length, sum_by};
ghost use Rattle.std.specs.List.{All};
ghost use Rattle.query_graph.specs.IsGraph.{rows_at};
ghost use Rattle.query_graph.specs.NodeSizes.{width_at};
ghost use Rattle.query_graph.specs.Observers.{sources_of};
ghost use Rattle.rewrites.specs.Parts.{parts_at};
ghost use Rattle.places.specs.Cost as spec;
ghost use Rattle.places.specs.Cost.{AreSmall, HaveFewRows, IsSmall};

use crate::place::Place;
use lanes::ceil_log2;
use query_graph::{Group, Item, Join, Node, Operator, Test};
use query_text::{Cmp, Op};
use rewrites::{Part, PartPlace, Rewritten};

fn compare_cost(cmp: Cmp) -> u128
    ensures cost { result ≡ spec.compare_cost cmp }
    ensures few { result ≤ 13 }
{
    match cmp {
        Cmp::Eq | Cmp::Ne => 6,
        Cmp::Lt | Cmp::Le | Cmp::Gt | Cmp::Ge => 13,
    }
}

fn operation_cost(op: Op) -> u128
    ensures cost { result ≡ spec.operation_cost op }
    ensures few { result ≤ 883 }
{
    match op {
        Op::Compare(cmp) => compare_cost(cmp),
        Op::Add | Op::Sub => 13,
        Op::Mul => 883,
        Op::And | Op::Or => 1,
    }
}

// A row of a filter.
fn tests_cost(tests: &[Test]) -> u128
    ensures cost { result ≡ sum_by spec.test_cost tests.now }
    ensures few { result ≤ 14 * length tests.now }
{
    let mut cost = 0;
    for test in tests {
        cost += compare_cost(test.cmp) + 1;
    }
    cost
}

fn item_cost(item: &Item) -> u128
    ensures cost { result ≡ spec.item_cost item.now }
    ensures few { result ≤ 883 }
{
    match item {
        Item::Plain(_) => 0,
        Item::Computed {
            left: _,
            op,
            right: _,
        } => operation_cost(*op),
    }
}

// A row of a select.
fn items_cost(items: &[Item]) -> u128
    ensures cost { result ≡ sum_by spec.item_cost items.now }
    ensures few { result ≤ 883 * length items.now }
{
    let mut cost = 0;
    for item in items {
        cost += item_cost(item);
    }
    cost
}

fn joint_part(part: &Part) -> u128
    ensures cost { result ≡ spec.joint_part part.now }
    ensures few { result < 2 ^ 32 }
{
    match part.place {
        PartPlace::Clear(_) => 0,
        PartPlace::Joint => part.rows as u128,
    }
}

// The rows of all joint parts.
fn joint_rows(parts: &[Part]) -> u128
    ensures { result ≡ spec.joint_rows parts.now }
{
    let mut rows = 0;
    for part in parts {
        rows += joint_part(part);
    }
    rows
}

fn declared_rows(nodes: &[Node], number: u32) -> u32
    ensures { result ≡ rows_at nodes.now number }
{
    match nodes.get(number as usize) {
        Some(node) => node.rows,
        None => 0,
    }
}

// The declared rows of the node with this number.
pub(crate) fn rows_at(nodes: &[Node], number: u32) -> u128
    requires { AreSmall nodes.now }
    ensures rows { result ≡ rows_at nodes.now number }
    ensures few { result ≤ 65536 }
{
    let rows = declared_rows(nodes, number);
    rows as u128
}

// A join on shares alone: each pair of rows is looked at.
fn shared_join(nodes: &[Node], join: &Join) -> u128
    requires { AreSmall nodes.now }
    ensures cost { result ≡ spec.shared_join (length join.now.keys) (rows_at nodes.now join.now.left) (rows_at nodes.now join.now.right) }
    ensures few { result ≤ 2 ^ 104 }
{
    let pairs = rows_at(nodes, join.left) * rows_at(nodes, join.right);
    pairs * (7 * join.keys.len() as u128 + 2)
}

// A join by the help of a party: rows are moved.
fn hybrid_join(nodes: &[Node], join: &Join, rows: u32, columns: usize) -> u128
    requires small { AreSmall nodes.now }
    requires rows { rows ≤ 65536 }
    requires columns { columns ≤ 32 }
    ensures cost { result ≡ spec.hybrid_join columns (rows_at nodes.now join.now.left) (rows_at nodes.now join.now.right) rows }
    ensures few { result ≤ 2 ^ 104 }
{
    let levels = ceil_log2(rows as u64) as u128 + 1;
    let moved = rows_at(nodes, join.left) + rows_at(nodes, join.right) + rows as u128 * levels;
    moved * (columns as u128 + 2)
}

// The rows on which a group works.
fn rows_to_group(nodes: &[Node], group: &Group) -> u128
    requires { AreSmall nodes.now }
    ensures rows { result ≡ spec.rows_to_group group.now.parts_at_most (rows_at nodes.now group.now.source) }
    ensures few { result ≤ 65536 }
{
    let rows = rows_at(nodes, group.source);
    match group.parts_at_most {
        Some(bound) => rows.min(3 * bound as u128),
        None => rows,
    }
}

// A group on shares alone: with keys each pair of rows is looked at, without keys each row.
fn shared_group(nodes: &[Node], group: &Group) -> u128
    requires { AreSmall nodes.now }
    ensures cost { result ≡ spec.shared_group group.now.keys (length group.now.aggregates) (spec.rows_to_group group.now.parts_at_most (rows_at nodes.now group.now.source)) }
    ensures few { result ≤ 2 ^ 104 }
{
    let rows = rows_to_group(nodes, group);
    let aggregates = 17 * group.aggregates.len() as u128;
    let keys = 7 * group.keys.len() as u128;
    if keys == 0 {
        return rows * (aggregates + 4);
    }
    rows * rows * (keys + 4 + aggregates)
}

// A group by the help of a party: rows are moved.
fn hybrid_group(nodes: &[Node], group: &Group) -> u128
    requires { AreSmall nodes.now }
    ensures cost { result ≡ spec.hybrid_group (length group.now.keys) (length group.now.aggregates) (spec.rows_to_group group.now.parts_at_most (rows_at nodes.now group.now.source)) }
    ensures few { result ≤ 2 ^ 120 }
{
    let rows = rows_to_group(nodes, group);
    let levels = ceil_log2(rows as u64) as u128 + 2;
    let width = 17 * group.aggregates.len() as u128 + group.keys.len() as u128 + 2;
    levels * rows * width
}

fn width_of(nodes: &[Node], number: u32) -> usize
    ensures { result ≡ width_at nodes.now number }
{
    match nodes.get(number as usize) {
        Some(node) => node.columns.len(),
        None => 0,
    }
}

// How many columns the node with this number has.
pub(crate) fn width_at(nodes: &[Node], number: u32) -> u128
    requires { AreSmall nodes.now }
    ensures width { result ≡ width_at nodes.now number }
    ensures few { result ≤ 32 }
{
    let width = width_of(nodes, number);
    width as u128
}

// Distinct rows on shares: each pair of rows is looked at.
fn shared_distinct(nodes: &[Node], source: u32, columns: usize) -> u128
    requires { AreSmall nodes.now }
    ensures cost { result ≡ spec.shared_distinct columns (rows_at nodes.now source) }
    ensures few { result ≤ 2 ^ 104 }
{
    let rows = rows_at(nodes, source);
    rows * rows * (7 * columns as u128 + 4)
}

// The rows of all joint parts, each worked for so many words.
fn rows_cost(parts: &[Part], row: u128) -> u128
    requires few { spec.joint_rows parts.now ≤ 65536 }
    requires row { row ≤ 2 ^ 80 }
    ensures cost { result ≡ spec.joint_rows parts.now * row }
    ensures few { result ≤ 2 ^ 104 }
{
    joint_rows(parts) * row
}

// The work on the joint parts of a node, with a party's help or without.
pub(crate) fn joint_work(nodes: &[Node], helped: bool, parts: &[Part], node: &Node) -> u128
    requires small { AreSmall nodes.now }
    requires node { IsSmall node.now }
    requires few { spec.joint_rows parts.now ≤ 65536 }
    ensures cost { result ≡ spec.joint_work nodes.now helped parts.now node.now node.now.shape }
    ensures few { result ≤ 2 ^ 120 }
{
    match &node.shape {
        Operator::Relation(_) | Operator::Concat(_) => 0,
        Operator::Filter(filter) => rows_cost(parts, tests_cost(filter.tests.as_slice())),
        Operator::Select(select) => rows_cost(parts, items_cost(select.items.as_slice())),
        Operator::Join(join) => {
            if helped {
                hybrid_join(nodes, join, node.rows, node.columns.len())
            } else {
                shared_join(nodes, join)
            }
        }
        Operator::Group(group) => {
            if helped {
                hybrid_group(nodes, group)
            } else {
                shared_group(nodes, group)
            }
        }
        Operator::Distinct(distinct) => {
            shared_distinct(nodes, distinct.source, node.columns.len())
        }
    }
}

// The words of a source's joint parts.
fn opened_source(nodes: &[Node], rewritten: &Rewritten, source: u32) -> u128
    requires small { AreSmall nodes.now }
    requires few { HaveFewRows rewritten.now.parts }
    requires source { source < length rewritten.now.parts }
    ensures cost { result ≡ spec.joint_rows (parts_at rewritten.now.parts source) * width_at nodes.now source }
    ensures few { result ≤ 2 ^ 21 }
{
    joint_rows(rewritten.parts(source).as_slice()) * width_at(nodes, source)
}

// The words of the joint parts of all sources.
fn opening_cost(nodes: &[Node], rewritten: &Rewritten, shape: &Operator) -> u128
    requires small { AreSmall nodes.now }
    requires few { HaveFewRows rewritten.now.parts }
    requires sources { All (λ s. s < length rewritten.now.parts) (sources_of shape.now) }
    ensures cost { result ≡ spec.opening_cost nodes.now rewritten.now.parts (sources_of shape.now) }
    ensures few { result ≤ 2 ^ 85 }
{
    let mut cost = 0;
    for index in 0..shape.source_count() {
        if let Some(source) = shape.source(index) {
            cost += opened_source(nodes, rewritten, source);
        }
    }
    cost
}

// The AND words of the node with this number in its place.
pub(crate) fn node_words(
    nodes: &[Node],
    rewritten: &Rewritten,
    number: u32,
    node: &Node,
    place: Place,
) -> u128
    requires small { AreSmall nodes.now }
    requires node { IsSmall node.now }
    requires few { HaveFewRows rewritten.now.parts }
    requires number { number < length rewritten.now.parts }
    requires sources { All (λ s. s < length rewritten.now.parts) (sources_of node.now.shape) }
    ensures cost { result ≡ spec.node_words nodes.now rewritten.now.parts number node.now place }
    ensures few { result ≤ 2 ^ 120 }
{
    let parts = rewritten.parts(number).as_slice();
    match place {
        Place::Up => 0,
        Place::Clear(_) => match node.shape.clear_at() {
            Some(_) => opening_cost(nodes, rewritten, &node.shape),
            None => 0,
        },
        Place::Hybrid(_) => joint_work(nodes, true, parts, node),
        Place::Shared | Place::Split => joint_work(nodes, false, parts, node),
    }
}
