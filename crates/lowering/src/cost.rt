//! The most AND words of a query whose nodes are all worked on shares.

ghost use Rattle.std.specs.Prelude.{◌≡◌, ◌*◌, ◌^◌, ◌≤◌, length, map, sum};
ghost use Rattle.query_graph.specs.IsGraph.{rows_at};
ghost use Rattle.query_graph.specs.NodeSizes.{width_at};
ghost use Rattle.plain_meaning.specs.Convert.{aggregate_of, comparison_of, item_of, operation_of, test_of};
ghost use Rattle.shared_ops.specs.Costs as costs;
ghost use Rattle.lowering.specs.Costs.{AreSmall, node_cost, output_cost, shared_cost};

use query_graph::{Distinct, Graph, Group, Item, Join, Node, Operator, Output, Test};
use query_text::{Cmp, Op};

// A row of a comparison.
fn comparison_cost(cmp: Cmp) -> u128
    ensures cost { result ≡ costs.comparison_cost (comparison_of cmp) }
    ensures few { result ≤ 13 }
{
    match cmp {
        Cmp::Eq | Cmp::Ne => 6,
        Cmp::Lt | Cmp::Le | Cmp::Gt | Cmp::Ge => 13,
    }
}

// A row of an operation.
fn operation_cost(op: Op) -> u128
    ensures cost { result ≡ costs.operation_cost (operation_of op) }
    ensures few { result ≤ 883 }
{
    match op {
        Op::Compare(cmp) => comparison_cost(cmp),
        Op::Add | Op::Sub => 13,
        Op::Mul => 883,
        Op::And | Op::Or => 1,
    }
}

// A row of a filter.
fn tests_cost(tests: &[Test]) -> u128
    ensures cost { result ≡ costs.tests_cost (map test_of tests.now) }
    ensures few { result ≤ 14 * length tests.now }
{
    let mut cost = 0;
    for test in tests {
        cost += comparison_cost(test.cmp) + 1;
    }
    cost
}

// A row of an item.
fn item_cost(item: &Item) -> u128
    ensures cost { result ≡ costs.item_cost (item_of item.now) }
    ensures few { result ≤ 883 }
{
    match item {
        Item::Plain(_) => 0,
        Item::Computed {
            left: _,
            op,
            right: _,
        } => operation_cost(*op),
    }
}

// A row of a select.
fn items_cost(items: &[Item]) -> u128
    ensures cost { result ≡ costs.items_cost (map item_of items.now) }
    ensures few { result ≤ 883 * length items.now }
{
    let mut cost = 0;
    for item in items {
        cost += item_cost(item);
    }
    cost
}

// The declared rows of the node with this number.
fn rows_at(nodes: &[Node], number: u32) -> u128
    requires { AreSmall nodes.now }
    ensures rows { result ≡ rows_at nodes.now number }
    ensures few { result ≤ 65536 }
{
    match nodes.get(number as usize) {
        Some(node) => node.rows as u128,
        None => 0,
    }
}

// How many columns the node with this number has.
fn width_at(nodes: &[Node], number: u32) -> u128
    requires { AreSmall nodes.now }
    ensures width { result ≡ width_at nodes.now number }
    ensures few { result ≤ 32 }
{
    match nodes.get(number as usize) {
        Some(node) => node.columns.len() as u128,
        None => 0,
    }
}

// A join: each pair of rows is looked at.
fn join_cost(nodes: &[Node], join: &Join) -> u128
    requires { AreSmall nodes.now }
    ensures cost { result ≡ rows_at nodes.now join.now.left * rows_at nodes.now join.now.right * costs.join_cost (length join.now.keys) }
    ensures few { result ≤ 2 ^ 104 }
{
    let pairs = rows_at(nodes, join.left) * rows_at(nodes, join.right);
    pairs * (7 * join.keys.len() as u128 + 2)
}

// A group: with keys each pair of rows is looked at, without keys each row.
fn group_cost(nodes: &[Node], group: &Group) -> u128
    requires { AreSmall nodes.now }
    ensures cost { result ≡ costs.group_cost group.now.keys (map aggregate_of group.now.aggregates) (rows_at nodes.now group.now.source) }
    ensures few { result ≤ 2 ^ 104 }
{
    let rows = rows_at(nodes, group.source);
    let aggregates = 17 * group.aggregates.len() as u128;
    let keys = 7 * group.keys.len() as u128;
    if keys == 0 {
        return rows * (aggregates + 4);
    }
    rows * rows * (keys + 4 + aggregates)
}

// Distinct rows: each pair of rows is looked at.
fn distinct_cost(nodes: &[Node], distinct: &Distinct) -> u128
    requires { AreSmall nodes.now }
    ensures cost { result ≡ costs.distinct_cost (width_at nodes.now distinct.now.source) (rows_at nodes.now distinct.now.source) }
    ensures few { result ≤ 2 ^ 104 }
{
    let rows = rows_at(nodes, distinct.source);
    rows * rows * (7 * width_at(nodes, distinct.source) + 4)
}

// A filter or a select: each row.
fn rows_cost(nodes: &[Node], source: u32, row: u128) -> u128
    requires small { AreSmall nodes.now }
    requires row { row ≤ 2 ^ 80 }
    ensures cost { result ≡ rows_at nodes.now source * row }
    ensures few { result ≤ 2 ^ 104 }
{
    rows_at(nodes, source) * row
}

fn node_cost(nodes: &[Node], node: &Node) -> u128
    requires { AreSmall nodes.now }
    ensures cost { result ≡ node_cost nodes.now node.now }
    ensures few { result ≤ 2 ^ 104 }
{
    match &node.shape {
        Operator::Relation(_) | Operator::Concat(_) => 0,
        Operator::Filter(filter) => {
            rows_cost(nodes, filter.source, tests_cost(filter.tests.as_slice()))
        }
        Operator::Select(select) => {
            rows_cost(nodes, select.source, items_cost(select.items.as_slice()))
        }
        Operator::Join(join) => join_cost(nodes, join),
        Operator::Group(group) => group_cost(nodes, group),
        Operator::Distinct(distinct) => distinct_cost(nodes, distinct),
    }
}

// Each word of an output's columns.
fn output_cost(nodes: &[Node], output: &Output) -> u128
    requires { AreSmall nodes.now }
    ensures cost { result ≡ output_cost nodes.now output.now }
    ensures few { result ≤ 2 ^ 21 }
{
    rows_at(nodes, output.node) * width_at(nodes, output.node)
}

fn nodes_cost(nodes: &[Node]) -> u128
    requires small { AreSmall nodes.now }
    requires few { length nodes.now ≤ 63 }
    ensures cost { result ≡ sum (map (node_cost nodes.now) nodes.now) }
    ensures few { result ≤ 2 ^ 110 }
{
    let mut cost = 0;
    for node in nodes {
        cost += node_cost(nodes, node);
    }
    cost
}

fn outputs_cost(nodes: &[Node], outputs: &[Output]) -> u128
    requires { AreSmall nodes.now }
    ensures cost { result ≡ sum (map (output_cost nodes.now) outputs.now) }
    ensures few { result ≤ 2 ^ 110 }
{
    let mut cost = 0;
    for output in outputs {
        cost += output_cost(nodes, output);
    }
    cost
}

/// The most AND words of all nodes and outputs on shares.
pub(crate) fn shared_cost(graph: &Graph) -> u128
    ensures { result ≡ shared_cost graph.now }
{
    let nodes = graph.nodes();
    nodes_cost(nodes) + outputs_cost(nodes, graph.outputs())
}
