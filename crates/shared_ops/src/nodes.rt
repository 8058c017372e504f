//! The operators of nodes of a graph, by their tests, items, keys and aggregates as those of operators on rows.

ghost use Rattle.std.specs.Prelude.{◌≡◌, true, ◌+◌, ◌*◌, ◌^◌, ◌<◌, ◌≤◌, [], ◌∷◌, All, length, IfOk};
ghost use Rattle.wires.specs.Growth.{Grows};
ghost use Rattle.query_graph.specs.NodeSizes.{unbounded_size};
ghost use Rattle.query_graph.specs.Observers.{sources_of};
ghost use Rattle.shared_ops.specs.Joint.{AreJoint, IsJoint};
ghost use Rattle.shared_ops.specs.Nodes.{FitsNode, MakesNode, is_filter, is_group, is_join, is_select, node_calls, node_cost, sizes_of, widths_of};

use crate::concat::joint_concat;
use crate::distinct::joint_distinct;
use crate::filter::filter_by;
use crate::group::group_by;
use crate::join::join_by;
use crate::joint::Joint;
use crate::select::select_by;
use plain_meaning::{aggregates_of, items_of, tests_of};
use query_graph::{Node, Operator};
use std::alloc::AllocError;
use wires::Wires;

/// The filter of a node on the table of its source, as `filter_by` by the node's tests.
pub fn joint_filter<W: Wires>(
    wires: &mut W,
    table: &Joint,
    node: &Node,
) -> Result<Joint, AllocError>
    requires joint { IsJoint (W.shape wires.old) table.now }
    requires filter { is_filter node.now.shape ≡ true }
    requires fits { FitsNode node.now.shape (widths_of (table.now ∷ [])) }
    ensures grows { Grows W.grown W.possible W.shape wires.old wires.new }
    ensures makes { IfOk result (λ new. MakesNode (W.possible wires.new) (W.shape wires.new) new node.now.shape (table.now ∷ [])) }
    ensures cost { W.ands wires.new ≤ W.ands wires.old + node_cost node.now.shape (sizes_of (table.now ∷ [])) (widths_of (table.now ∷ [])) }
    ensures calls { W.and_calls wires.new ≤ W.and_calls wires.old + node_calls node.now.shape (sizes_of (table.now ∷ [])) (widths_of (table.now ∷ [])) }
{
    match &node.shape {
        Operator::Filter(filter) => {
            let tests = tests_of(*table.columns.allocator(), filter.tests.as_slice())?;
            let new = filter_by(wires, table, tests.as_slice())?;
            Ok(new)
        }
        _ => unreachable!(),
    }
}

/// The select of a node on the table of its source, as `select_by` by the node's items.
pub fn joint_select<W: Wires>(
    wires: &mut W,
    table: &Joint,
    node: &Node,
) -> Result<Joint, AllocError>
    requires joint { IsJoint (W.shape wires.old) table.now }
    requires select { is_select node.now.shape ≡ true }
    requires fits { FitsNode node.now.shape (widths_of (table.now ∷ [])) }
    ensures grows { Grows W.grown W.possible W.shape wires.old wires.new }
    ensures makes { IfOk result (λ new. MakesNode (W.possible wires.new) (W.shape wires.new) new node.now.shape (table.now ∷ [])) }
    ensures cost { W.ands wires.new ≤ W.ands wires.old + node_cost node.now.shape (sizes_of (table.now ∷ [])) (widths_of (table.now ∷ [])) }
    ensures calls { W.and_calls wires.new ≤ W.and_calls wires.old + node_calls node.now.shape (sizes_of (table.now ∷ [])) (widths_of (table.now ∷ [])) }
{
    match &node.shape {
        Operator::Select(select) => {
            let items = items_of(*table.columns.allocator(), select.items.as_slice())?;
            let new = select_by(wires, table, items.as_slice())?;
            Ok(new)
        }
        _ => unreachable!(),
    }
}

/// The join of a node on the tables of its sources, as `join_by` by the node's keys; room for each pair of rows, whatever
/// bound the node has.
pub fn joint_join<W: Wires>(
    wires: &mut W,
    left: &Joint,
    right: &Joint,
    node: &Node,
) -> Result<Joint, AllocError>
    requires left { IsJoint (W.shape wires.old) left.now }
    requires right { IsJoint (W.shape wires.old) right.now }
    requires join { is_join node.now.shape ≡ true }
    requires fits { FitsNode node.now.shape (widths_of (left.now ∷ right.now ∷ [])) }
    requires few { left.now.rows * right.now.rows < 2 ^ 32 }
    ensures grows { Grows W.grown W.possible W.shape wires.old wires.new }
    ensures makes { IfOk result (λ new. MakesNode (W.possible wires.new) (W.shape wires.new) new node.now.shape (left.now ∷ right.now ∷ [])) }
    ensures cost { W.ands wires.new ≤ W.ands wires.old
        + node_cost node.now.shape (sizes_of (left.now ∷ right.now ∷ [])) (widths_of (left.now ∷ right.now ∷ [])) }
    ensures calls { W.and_calls wires.new ≤ W.and_calls wires.old
        + node_calls node.now.shape (sizes_of (left.now ∷ right.now ∷ [])) (widths_of (left.now ∷ right.now ∷ [])) }
{
    match &node.shape {
        Operator::Join(join) => {
            let new = join_by(wires, left, right, join.keys.as_slice())?;
            Ok(new)
        }
        _ => unreachable!(),
    }
}

/// The group of a node on the table of its source, as `group_by` by the node's keys and aggregates; room for as many rows
/// as the table, whatever bound the node has, and for one without keys.
pub fn joint_group<W: Wires>(wires: &mut W, table: &Joint, node: &Node) -> Result<Joint, AllocError>
    requires joint { IsJoint (W.shape wires.old) table.now }
    requires some { 0 < table.now.rows }
    requires group { is_group node.now.shape ≡ true }
    requires fits { FitsNode node.now.shape (widths_of (table.now ∷ [])) }
    ensures grows { Grows W.grown W.possible W.shape wires.old wires.new }
    ensures makes { IfOk result (λ new. MakesNode (W.possible wires.new) (W.shape wires.new) new node.now.shape (table.now ∷ [])) }
    ensures cost { W.ands wires.new ≤ W.ands wires.old + node_cost node.now.shape (sizes_of (table.now ∷ [])) (widths_of (table.now ∷ [])) }
    ensures calls { W.and_calls wires.new ≤ W.and_calls wires.old + node_calls node.now.shape (sizes_of (table.now ∷ [])) (widths_of (table.now ∷ [])) }
{
    match &node.shape {
        Operator::Group(group) => {
            let alloc = *table.columns.allocator();
            let aggregates = aggregates_of(alloc, group.aggregates.as_slice())?;
            let new = group_by(wires, table, group.keys.as_slice(), aggregates.as_slice())?;
            Ok(new)
        }
        _ => unreachable!(),
    }
}

/// The operator of a node that is no relation, on the tables of its sources in their order.
///
/// The room for rows, the columns and the most AND words and AND calls are those of the operator by the rows and the
/// columns of these tables, and no bound of the node counts. Of every graph `laws::nodes_fit_tables` says that its nodes
/// fit tables of their sources' widths.
pub fn joint_node<W: Wires>(
    wires: &mut W,
    tables: &Vec<Joint>,
    node: &Node,
) -> Result<Joint, AllocError>
    requires joint { AreJoint (W.shape wires.old) tables.now.items }
    requires some { 0 < length tables.now.items }
    requires count { length tables.now.items ≡ length (sources_of node.now.shape) }
    requires rows { All (λ t. 0 < t.rows) tables.now.items }
    requires fits { FitsNode node.now.shape (widths_of tables.now.items) }
    requires few { unbounded_size node.now.shape (sizes_of tables.now.items) < 2 ^ 32 }
    ensures grows { Grows W.grown W.possible W.shape wires.old wires.new }
    ensures makes { IfOk result (λ new. MakesNode (W.possible wires.new) (W.shape wires.new) new node.now.shape tables.now.items) }
    ensures cost { W.ands wires.new ≤ W.ands wires.old
        + node_cost node.now.shape (sizes_of tables.now.items) (widths_of tables.now.items) }
    ensures calls { W.and_calls wires.new ≤ W.and_calls wires.old
        + node_calls node.now.shape (sizes_of tables.now.items) (widths_of tables.now.items) }
{
    match &node.shape {
        Operator::Relation(_) => unreachable!(),
        Operator::Filter(_) => {
            let new = joint_filter(wires, &tables[0], node)?;
            Ok(new)
        }
        Operator::Select(_) => {
            let new = joint_select(wires, &tables[0], node)?;
            Ok(new)
        }
        Operator::Concat(_) => {
            let new = joint_concat(wires, tables)?;
            Ok(new)
        }
        Operator::Join(_) => {
            let new = joint_join(wires, &tables[0], &tables[1], node)?;
            Ok(new)
        }
        Operator::Group(_) => {
            let new = joint_group(wires, &tables[0], node)?;
            Ok(new)
        }
        Operator::Distinct(_) => {
            let new = joint_distinct(wires, &tables[0])?;
            Ok(new)
        }
    }
}
