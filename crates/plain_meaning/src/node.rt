//! The table of a node.
#![tactic(auto)]

ghost use Rattle.std.specs.Prelude.{◌≡◌, ◌<◌, drop, length, slice_index_or, [], IfOk};
ghost use Rattle.plain_meaning.specs.Fits.{FitsAfter, FitsRelation};
ghost use Rattle.plain_meaning.specs.Plain.{bound_of, is_over, listed_node, rows_of_tables, table_of};

use crate::made::{concatenated, distinct, filtered, grouped, joined, selected};
use crate::rows::{add_rows, copy_of, table_of_lent};
use crate::world::World;
use query_graph::{Node, Operator};
use std::alloc::{AllocError, Global};
use tables::Table;
use words::Column;

// The table of a node, from the tables of all earlier nodes; `relation` is the number of the next relation.
pub(crate) fn node_table(
    alloc: Global,
    node: &Node,
    world: &World,
    relation: usize,
    earlier: &[Table],
) -> Result<Table, AllocError>
    requires { FitsAfter (drop relation (rows_of_tables world.now)) earlier.now node.now }
    ensures { IfOk result (λ table. table
        ≡ listed_node (drop relation (rows_of_tables world.now)) earlier.now node.now) }
{
    let columns = copy_of(alloc, node.columns.as_slice())?;
    match &node.shape {
        Operator::Relation(_) => copied(alloc, columns, world, relation),
        Operator::Filter(filter) => filtered(alloc, columns, filter, earlier),
        Operator::Select(select) => selected(alloc, columns, select, earlier),
        Operator::Concat(concat) => concatenated(alloc, columns, concat, earlier),
        Operator::Join(join) => joined(alloc, columns, join, earlier),
        Operator::Group(group) => grouped(alloc, columns, group, earlier),
        Operator::Distinct(only) => distinct(alloc, columns, only, earlier),
    }
}

// The rows of a relation.
fn copied(
    alloc: Global,
    columns: Vec<Column>,
    world: &World,
    relation: usize,
) -> Result<Table, AllocError>
    requires { FitsRelation (drop relation (rows_of_tables world.now)) (length columns.items) }
    ensures { IfOk result (λ table. table
        ≡ table_of columns.items (slice_index_or (drop relation (rows_of_tables world.now)) 0 [])) }
{
    let mut rows = Vec::new(alloc);
    add_rows(world.table(relation), &mut rows)?;
    table_of_lent(alloc, columns, &rows)
}

// Whether a table has more rows than the bound of its node.
pub(crate) fn is_over(operator: &Operator, table: &Table) -> bool
    ensures { result ≡ is_over (bound_of operator.now) table.now.rows }
{
    match operator.at_most() {
        None => false,
        Some(bound) => (bound as usize) < table.rows(),
    }
}
