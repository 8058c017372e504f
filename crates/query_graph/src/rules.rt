//! The rules that a statement keeps behind an earlier graph.
#![tactic(auto)]

ghost use Rattle.std.specs.Prelude.{◌≡◌, ◌<◌, ◌≤◌, ◌^◌, length, true, IfOk, OnOk};
ghost use Rattle.query_graph.specs.Build.{rule_of};
ghost use Rattle.query_graph.specs.Columns.{columns_of};
ghost use Rattle.query_graph.specs.Faults.{Passes};
ghost use Rattle.query_graph.specs.Sizes.{cells_of, sizes_fit};
ghost use Rattle.query_graph.specs.Tables.{column_names};

use crate::fault::GraphFault;
use crate::kinds::kinds_fit;
use crate::names::Names;
use crate::node::Output;
use crate::nodes::Nodes;
use crate::shapes::shape_fits;
use crate::sizes::sizes_fit;
use crate::taken::check_new;
use query_text::Body;
use std::alloc::Global;
use words::Column;

/// The first rule that a statement breaks behind nodes of so many cells and outputs, where its names are
/// known: taken names, kinds, shape, size. The columns are those of its node, and the answer has their names.
pub(crate) fn check_rules(
    alloc: Global,
    nodes: &Nodes,
    outputs: &[Output],
    cells: u64,
    line: u32,
    body: &Body,
    columns: &[Column],
) -> Result<Names, GraphFault>
    requires few { length nodes.now < 2 ^ 32 }
    requires cells { cells ≡ cells_of nodes.now }
    requires few_cells { cells ≤ 4194304 }
    requires columns { columns.now ≡ columns_of nodes.now body.now }
    ensures rules { Passes result (rule_of (record { nodes = nodes.now; outputs = outputs.now }) line body.now) }
    ensures names { IfOk result (λ names. names ≡ column_names columns.now) }
    ensures sizes { OnOk result (sizes_fit nodes.now body.now ≡ true) }
{
    let names = check_new(alloc, line, nodes, outputs, body, columns)?;
    if !kinds_fit(nodes, body) {
        return Err(GraphFault::Kind { line });
    }
    if !shape_fits(nodes, body) {
        return Err(GraphFault::Shape { line });
    }
    if !sizes_fit(nodes, cells, body, columns) {
        return Err(GraphFault::Size { line });
    }
    Ok(names)
}
