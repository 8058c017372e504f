//! Nodes of a graph on small tables in the clear, worked by hand; their bounds and parties play no part.

ghost use Rattle.std.specs.Prelude.{◌≡◌, ◌^◌, ◌<◌, [], ◌∷◌, All, length, IfOk};
ghost use Rattle.query_graph.specs.NodeSizes.{unbounded_size};
ghost use Rattle.query_graph.specs.Observers.{sources_of};
ghost use Rattle.wires.specs.Held.{held_shape};
ghost use Rattle.shared_ops.specs.Joint.{AreJoint};
ghost use Rattle.shared_ops.specs.Nodes.{FitsNode, sizes_of, widths_of};

use crate::small_tables::{are, rows_of, table_of};
use listed::Listed;
use query_graph::{
    Aggregate, Concat, Distinct, Filter, Group, Item, Join, Node, Operand, Operator, Select, Test,
};
use query_text::{Cmp, Op};
use shared_ops::{Joint, joint_node};
use std::alloc::{AllocError, Global};
use std::test::Fail;
use wires::Clear;
use words::Label;

const TABLE: [[u64; 3]; 4] = [[7, 1, 1], [7, 2, 0], [7, 3, 1], [9, 3, 1]];

// A node of this operator.
fn node_of(alloc: Global, shape: Operator) -> Result<Node, AllocError>
    ensures { IfOk result (λ node. node.shape ≡ shape) }
{
    Ok(Node {
        name: Label::new(alloc, b"n")?,
        line: 1,
        columns: Listed::new(alloc),
        rows: 1,
        shape,
    })
}

// The rows of a node with one source.
fn on_one(alloc: Global, shape: Operator) -> Result<Vec<Vec<u64>>, AllocError>
    requires one { length (sources_of shape) ≡ 1 }
    requires fits { FitsNode shape (2 ∷ []) }
    requires few { unbounded_size shape (4 ∷ []) < 2 ^ 32 }
{
    let node = node_of(alloc, shape)?;
    let mut wires = Clear::new(alloc);
    let mut tables = Vec::new(alloc);
    tables.push(table_of(&mut wires, alloc, &TABLE)?)?;
    let made = joint_node(&mut wires, &tables, &node)?;
    rows_of(alloc, &wires, &made)
}

// This table and itself again.
fn two_tables(wires: &mut Clear, alloc: Global) -> Result<Vec<Joint>, AllocError>
    ensures joint { IfOk result (λ tables. AreJoint (held_shape wires.new) tables.items) }
    ensures count { IfOk result (λ tables. length tables.items ≡ 2) }
    ensures rows { IfOk result (λ tables. All (λ t. 0 < t.rows) tables.items) }
    ensures sizes { IfOk result (λ tables. sizes_of tables.items ≡ 4 ∷ 4 ∷ []) }
    ensures widths { IfOk result (λ tables. widths_of tables.items ≡ 2 ∷ 2 ∷ []) }
{
    let mut tables = Vec::new(alloc);
    tables.push(table_of(wires, alloc, &TABLE)?)?;
    tables.push(table_of(wires, alloc, &TABLE)?)?;
    Ok(tables)
}

// Those of one with two.
fn on_two(alloc: Global, shape: Operator) -> Result<Vec<Vec<u64>>, AllocError>
    requires two { length (sources_of shape) ≡ 2 }
    requires fits { FitsNode shape (2 ∷ 2 ∷ []) }
    requires few { unbounded_size shape (4 ∷ 4 ∷ []) < 2 ^ 32 }
{
    let node = node_of(alloc, shape)?;
    let mut wires = Clear::new(alloc);
    let tables = two_tables(&mut wires, alloc)?;
    let made = joint_node(&mut wires, &tables, &node)?;
    rows_of(alloc, &wires, &made)
}

#[test]
fn a_filter_by_its_tests(rt: HostRuntime) -> Result<(), Fail> {
    let test = Test {
        left: Operand::Column(1),
        cmp: Cmp::Gt,
        right: Operand::Constant(1),
    };
    let filter = Operator::Filter(Filter {
        source: 0,
        tests: Listed::from_vec(Vec::from_slice(rt.alloc(), &[test])?),
        at_most: Some(1),
        clear_at: None,
    });
    let rows = on_one(rt.alloc(), filter)?;
    assert!(rt; are(rows.as_slice(), &[&[7, 3], &[9, 3]]));
    Ok(())
}

#[test]
fn a_select_by_its_items(rt: HostRuntime) -> Result<(), Fail> {
    let item = Item::Computed {
        left: Operand::Column(0),
        op: Op::Mul,
        right: Operand::Column(1),
    };
    let select = Operator::Select(Select {
        source: 0,
        items: Listed::from_vec(Vec::from_slice(rt.alloc(), &[item])?),
        clear_at: Some(2),
    });
    let rows = on_one(rt.alloc(), select)?;
    assert!(rt; are(rows.as_slice(), &[&[7], &[21], &[27]]));
    Ok(())
}

#[test]
fn a_group_by_its_keys(rt: HostRuntime) -> Result<(), Fail> {
    let aggregates = [Aggregate::Sum(1), Aggregate::Count, Aggregate::Least(0)];
    let group = Operator::Group(Group {
        source: 0,
        keys: Listed::from_vec(Vec::from_slice(rt.alloc(), &[0])?),
        aggregates: Listed::from_vec(Vec::from_slice(rt.alloc(), &aggregates)?),
        parts_at_most: Some(1),
        at_most: Some(1),
        via: Some(3),
        clear_at: None,
    });
    let rows = on_one(rt.alloc(), group)?;
    assert!(rt; are(rows.as_slice(), &[&[7, 4, 2, 7], &[9, 3, 1, 9]]));
    Ok(())
}

#[test]
fn distinct_rows(rt: HostRuntime) -> Result<(), Fail> {
    let distinct = Operator::Distinct(Distinct {
        source: 0,
        at_most: None,
        clear_at: None,
    });
    let rows = on_one(rt.alloc(), distinct)?;
    assert!(rt; are(rows.as_slice(), &[&[7, 1], &[7, 3], &[9, 3]]));
    Ok(())
}

#[test]
fn a_join_by_its_keys(rt: HostRuntime) -> Result<(), Fail> {
    let join = Operator::Join(Join {
        left: 0,
        right: 0,
        keys: Listed::from_vec(Vec::from_slice(rt.alloc(), &[(0, 0), (1, 1)])?),
        at_most: Some(1),
        via: None,
        clear_at: None,
    });
    let rows = on_two(rt.alloc(), join)?;
    assert!(rt; are(rows.as_slice(), &[&[7, 1], &[7, 3], &[9, 3]]));
    Ok(())
}

#[test]
fn a_table_behind_itself(rt: HostRuntime) -> Result<(), Fail> {
    let concat = Operator::Concat(Concat {
        sources: Listed::from_vec(Vec::from_slice(rt.alloc(), &[0, 0])?),
    });
    let rows = on_two(rt.alloc(), concat)?;
    assert!(rt;
        are(
            rows.as_slice(),
            &[&[7, 1], &[7, 3], &[9, 3], &[7, 1], &[7, 3], &[9, 3]]
        )
    );
    Ok(())
}
