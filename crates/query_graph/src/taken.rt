//! Whether the names that a statement defines are new.
#![tactic(auto)]

ghost use Rattle.std.specs.Prelude.{◌≡◌, ◌<◌, ◌^◌, ◌==◌, length, IfOk};
ghost use Rattle.std.specs.List.{list_any};
ghost use Rattle.query_graph.specs.Columns.{columns_of, repeated_column, taken_in_node, taken_name, taken_node, taken_output};
ghost use Rattle.query_graph.specs.Faults.{Passes};
ghost use Rattle.query_graph.specs.Tables.{column_names};

use crate::fault::GraphFault;
use crate::names::Names;
use crate::node::Output;
use crate::nodes::Nodes;
use query_text::{Body, Bytes};
use std::alloc::Global;
use words::{Column, Label};

// Whether no earlier node has this name.
fn check_node_new(alloc: Global, line: u32, nodes: &Nodes, name: &Bytes) -> Result<(), GraphFault>
    ensures { Passes result (taken_node line nodes.now name.now) }
{
    if !nodes.has(name.bytes()) {
        return Ok(());
    }
    let name = Label::new(alloc, name.bytes())?;
    Err(GraphFault::Taken { line, name })
}

// Whether an output has the node of this number.
fn is_output(outputs: &[Output], number: u32) -> bool
    ensures { result ≡ list_any (λ o. o.node == number) outputs.now }
{
    outputs.iter().any(|output| output.node == number)
}

// Whether no output has the node of this name.
fn check_output_new(
    alloc: Global,
    line: u32,
    nodes: &Nodes,
    outputs: &[Output],
    name: &Bytes,
) -> Result<(), GraphFault>
    requires { length nodes.now < 2 ^ 32 }
    ensures { Passes result (taken_output line (record { nodes = nodes.now; outputs = outputs.now }) name.now) }
{
    let number = nodes.number(name.bytes()) as u32;
    if !is_output(outputs, number) {
        return Ok(());
    }
    let name = Label::new(alloc, name.bytes())?;
    Err(GraphFault::Taken { line, name })
}

// Whether the name of a node and those of its columns are new.
fn check_node_names(
    alloc: Global,
    line: u32,
    nodes: &Nodes,
    name: &Bytes,
    columns: &[Column],
) -> Result<Names, GraphFault>
    ensures rules { Passes result (taken_in_node line nodes.now name.now columns.now) }
    ensures names { IfOk result (λ names. names ≡ column_names columns.now) }
{
    check_node_new(alloc, line, nodes, name)?;
    check_columns_new(alloc, line, columns)
}

/// The names of the columns of a statement's node, which are given, or its first name that is taken.
pub(crate) fn check_new(
    alloc: Global,
    line: u32,
    nodes: &Nodes,
    outputs: &[Output],
    body: &Body,
    columns: &[Column],
) -> Result<Names, GraphFault>
    requires few { length nodes.now < 2 ^ 32 }
    requires columns { columns.now ≡ columns_of nodes.now body.now }
    ensures rules { Passes result (taken_name line (record { nodes = nodes.now; outputs = outputs.now }) body.now) }
    ensures names { IfOk result (λ names. names ≡ column_names columns.now) }
{
    match body {
        Body::Relation(r) => check_node_names(alloc, line, nodes, &r.name, columns),
        Body::Filter(f) => check_node_names(alloc, line, nodes, &f.name, columns),
        Body::Select(s) => check_node_names(alloc, line, nodes, &s.name, columns),
        Body::Concat(c) => check_node_names(alloc, line, nodes, &c.name, columns),
        Body::Join(j) => check_node_names(alloc, line, nodes, &j.name, columns),
        Body::Group(g) => check_node_names(alloc, line, nodes, &g.name, columns),
        Body::Distinct(d) => check_node_names(alloc, line, nodes, &d.name, columns),
        Body::Output(o) => {
            check_output_new(alloc, line, nodes, outputs, &o.node)?;
            Ok(Names::new(alloc))
        }
    }
}

// The names of these columns, or the first that an earlier one has.
fn check_columns_new(alloc: Global, line: u32, columns: &[Column]) -> Result<Names, GraphFault>
    ensures rules { Passes result (repeated_column line columns.now) }
    ensures names { IfOk result (λ names. names ≡ column_names columns.now) }
{
    let mut names = Names::new(alloc);
    for column in columns {
        if !names.add(alloc, column.name.bytes())? {
            let name = Label::new(alloc, column.name.bytes())?;
            return Err(GraphFault::Taken { line, name });
        }
    }
    Ok(names)
}
