//! What a statement's node does, with numbers for its names.
#![tactic(auto)]

ghost use Rattle.std.specs.Prelude.{◌≡◌, ◌<◌, ◌^◌, [], length, map, true, IfOk};
ghost use Rattle.query_graph.specs.Build.{key_numbers, name_of, node_of, operator_of, output_of};
ghost use Rattle.query_graph.specs.Columns.{columns_of};
ghost use Rattle.query_graph.specs.Names.{node_number};
ghost use Rattle.query_graph.specs.Parties.{parties_of};
ghost use Rattle.query_graph.specs.Sizes.{AreNarrow, counts_fit, is_bound, sizes_fit};

use crate::node::{Node, Output};
use crate::nodes::Nodes;
use crate::numbers::{aggregates_of, items_of, number, numbers_of, tests_of};
use crate::operator::{Concat, Distinct, Filter, Group, Join, Operator, Relation, Select};
use crate::parties::Parties;
use crate::sizes::declared_rows;
use crate::source::Source;
use listed::Listed;
use query_text::{
    Body, Bytes, ColumnText, FilterText, GroupText, JoinText, RelationText, SelectText,
};
use std::alloc::{AllocError, Global};
use words::{Column, Label};

// The number of the node with this name.
fn number_of_node(nodes: &Nodes, name: &Bytes) -> u32
    requires { length nodes.now < 2 ^ 32 }
    ensures { result ≡ node_number nodes.now name.now }
{
    nodes.number(name.bytes()) as u32
}

// The numbers of the nodes with these names.
fn numbers_of_nodes(alloc: Global, nodes: &Nodes, names: &[Bytes]) -> Result<Vec<u32>, AllocError>
    requires { length nodes.now < 2 ^ 32 }
    ensures { IfOk result (λ made. made.items ≡ map (node_number nodes.now) names.now) }
{
    names
        .iter()
        .map(|name| number_of_node(nodes, name))
        .collect(alloc)
}

// A bound that can be written.
fn bound_of(bound: Option<u64>) -> Option<u32>
    requires { is_bound bound ≡ true }
    ensures { result ≡ bound }
{
    match bound {
        Some(most) => Some(most as u32),
        None => None,
    }
}

// The parties that the text trusts with each column.
fn trusted_of(alloc: Global, columns: &[ColumnText]) -> Result<Vec<Parties>, AllocError>
    ensures { IfOk result (λ made. made.items ≡ map (λ c. parties_of c.trusted) columns.now) }
{
    columns
        .iter()
        .map(|column| Parties::of_numbers(column.trusted.bytes()))
        .collect(alloc)
}

// The numbers of a key on the left and on the right.
fn key_of(left: &Source, right: &Source, key: &Bytes) -> (u32, u32)
    requires left { length left.now < 2 ^ 32 }
    requires right { length right.now < 2 ^ 32 }
    ensures left { result.0 ≡ (key_numbers left.now right.now key.now).0 }
    ensures right { result.1 ≡ (key_numbers left.now right.now key.now).1 }
{
    (number(left, key), number(right, key))
}

// The keys of a join by their numbers on both sides.
fn keys_of(
    alloc: Global,
    left: &Source,
    right: &Source,
    keys: &[Bytes],
) -> Result<Vec<(u32, u32)>, AllocError>
    requires left { length left.now < 2 ^ 32 }
    requires right { length right.now < 2 ^ 32 }
    ensures { IfOk result (λ made. made.items ≡ map (key_numbers left.now right.now) keys.now) }
{
    keys.iter()
        .map(|key| key_of(left, right, key))
        .collect(alloc)
}

fn join_of(alloc: Global, nodes: &Nodes, join: &JoinText) -> Result<Operator, AllocError>
    requires few { length nodes.now < 2 ^ 32 }
    requires narrow { AreNarrow nodes.now }
    requires bound { is_bound join.now.at_most ≡ true }
    ensures { IfOk result (λ made. made ≡ operator_of nodes.now (Body.Join join.now)) }
{
    let left = nodes.source(&join.left);
    let right = nodes.source(&join.right);
    let keys = Listed::from_vec(keys_of(alloc, &left, &right, join.keys.as_slice())?);
    Ok(Operator::Join(Join {
        left: number_of_node(nodes, &join.left),
        right: number_of_node(nodes, &join.right),
        keys,
        at_most: bound_of(join.at_most),
        via: join.via,
        clear_at: join.clear_at,
    }))
}

fn group_of(alloc: Global, nodes: &Nodes, group: &GroupText) -> Result<Operator, AllocError>
    requires few { length nodes.now < 2 ^ 32 }
    requires narrow { AreNarrow nodes.now }
    requires parts { is_bound group.now.parts_at_most ≡ true }
    requires bound { is_bound group.now.at_most ≡ true }
    ensures { IfOk result (λ made. made ≡ operator_of nodes.now (Body.Group group.now)) }
{
    let source = nodes.source(&group.source);
    let keys = Listed::from_vec(numbers_of(alloc, &source, group.keys.as_slice())?);
    let aggregates = aggregates_of(alloc, &source, group.aggregates.as_slice())?;
    let aggregates = Listed::from_vec(aggregates);
    Ok(Operator::Group(Group {
        source: number_of_node(nodes, &group.source),
        keys,
        aggregates,
        parts_at_most: bound_of(group.parts_at_most),
        at_most: bound_of(group.at_most),
        via: group.via,
        clear_at: group.clear_at,
    }))
}

fn filter_of(alloc: Global, nodes: &Nodes, filter: &FilterText) -> Result<Operator, AllocError>
    requires few { length nodes.now < 2 ^ 32 }
    requires narrow { AreNarrow nodes.now }
    requires bound { is_bound filter.now.at_most ≡ true }
    ensures { IfOk result (λ made. made ≡ operator_of nodes.now (Body.Filter filter.now)) }
{
    let source = nodes.source(&filter.source);
    let tests = Listed::from_vec(tests_of(alloc, &source, filter.tests.as_slice())?);
    Ok(Operator::Filter(Filter {
        source: number_of_node(nodes, &filter.source),
        tests,
        at_most: bound_of(filter.at_most),
        clear_at: filter.clear_at,
    }))
}

fn select_of(alloc: Global, nodes: &Nodes, select: &SelectText) -> Result<Operator, AllocError>
    requires few { length nodes.now < 2 ^ 32 }
    requires narrow { AreNarrow nodes.now }
    ensures { IfOk result (λ made. made ≡ operator_of nodes.now (Body.Select select.now)) }
{
    let source = nodes.source(&select.source);
    let items = Listed::from_vec(items_of(alloc, &source, select.items.as_slice())?);
    Ok(Operator::Select(Select {
        source: number_of_node(nodes, &select.source),
        items,
        clear_at: select.clear_at,
    }))
}

fn relation_of(alloc: Global, relation: &RelationText) -> Result<Operator, AllocError>
    ensures { IfOk result (λ made. made ≡ operator_of [] (Body.Relation relation.now)) }
{
    let trusted = Listed::from_vec(trusted_of(alloc, relation.columns.as_slice())?);
    Ok(Operator::Relation(Relation {
        owner: relation.owner,
        trusted,
        release: Parties::of_numbers(relation.release.bytes()),
    }))
}

/// What a statement's node does.
pub(crate) fn operator_of(alloc: Global, nodes: &Nodes, body: &Body) -> Result<Operator, AllocError>
    requires few { length nodes.now < 2 ^ 32 }
    requires narrow { AreNarrow nodes.now }
    requires counts { counts_fit body.now ≡ true }
    ensures { IfOk result (λ made. made ≡ operator_of nodes.now body.now) }
{
    match body {
        Body::Relation(r) => relation_of(alloc, r),
        Body::Filter(f) => filter_of(alloc, nodes, f),
        Body::Select(s) => select_of(alloc, nodes, s),
        Body::Concat(c) => {
            let sources = numbers_of_nodes(alloc, nodes, c.sources.as_slice())?;
            let sources = Listed::from_vec(sources);
            Ok(Operator::Concat(Concat { sources }))
        }
        Body::Join(j) => join_of(alloc, nodes, j),
        Body::Group(g) => group_of(alloc, nodes, g),
        Body::Distinct(d) => Ok(Operator::Distinct(Distinct {
            source: number_of_node(nodes, &d.source),
            at_most: bound_of(d.at_most),
            clear_at: d.clear_at,
        })),
        Body::Output(_) => {
            let sources = Listed::new(alloc);
            Ok(Operator::Concat(Concat { sources }))
        }
    }
}

/// The node of a statement, which has these columns.
pub(crate) fn node_of(
    alloc: Global,
    nodes: &Nodes,
    line: u32,
    body: &Body,
    columns: Vec<Column>,
) -> Result<Node, AllocError>
    requires few { length nodes.now < 2 ^ 32 }
    requires narrow { AreNarrow nodes.now }
    requires columns { columns.items ≡ columns_of nodes.now body.now }
    requires sizes { sizes_fit nodes.now body.now ≡ true }
    ensures { IfOk result (λ made. made ≡ node_of nodes.now line body.now) }
{
    Ok(Node {
        name: name_of(alloc, body)?,
        line,
        columns: Listed::from_vec(columns),
        rows: declared_rows(nodes, body) as u32,
        shape: operator_of(alloc, nodes, body)?,
    })
}

/// The output that a statement is.
pub(crate) fn output_of(nodes: &Nodes, line: u32, body: &Body) -> Option<Output>
    requires { length nodes.now < 2 ^ 32 }
    ensures { result ≡ output_of nodes.now line body.now }
{
    match body {
        Body::Relation(_) => None,
        Body::Filter(_) => None,
        Body::Select(_) => None,
        Body::Concat(_) => None,
        Body::Join(_) => None,
        Body::Group(_) => None,
        Body::Distinct(_) => None,
        Body::Output(o) => Some(Output {
            line,
            node: number_of_node(nodes, &o.node),
            recipients: Parties::of_numbers(o.recipients.bytes()),
        }),
    }
}

/// The name that a statement defines.
pub(crate) fn name_of(alloc: Global, body: &Body) -> Result<Label, AllocError>
    ensures { IfOk result (λ name. name ≡ name_of body.now) }
{
    match body {
        Body::Relation(r) => Label::new(alloc, r.name.bytes()),
        Body::Filter(f) => Label::new(alloc, f.name.bytes()),
        Body::Select(s) => Label::new(alloc, s.name.bytes()),
        Body::Concat(c) => Label::new(alloc, c.name.bytes()),
        Body::Join(j) => Label::new(alloc, j.name.bytes()),
        Body::Group(g) => Label::new(alloc, g.name.bytes()),
        Body::Distinct(d) => Label::new(alloc, d.name.bytes()),
        Body::Output(_) => Label::new(alloc, &[]),
    }
}
