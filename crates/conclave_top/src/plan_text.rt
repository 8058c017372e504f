//! The text of `plan`: a line for each node of a graph, and then one for each output.

ghost use Rattle.std.specs.Prelude.{◌≡◌, ◌<◌, ◌^◌, ◌++◌, IfOk, OnOk, length};
ghost use Rattle.std.specs.List.{flat_map};
ghost use Rattle.query_graph.specs.IsGraph.{rows_at};
ghost use Rattle.trust_sets.specs.Known.{known_at};
ghost use Rattle.conclave_top.specs.PlanText.{column_text, columns_text, node_line, node_lines, operator_word, output_line, plan_text, set_text};

use lowering::lines::name_of;
use query_graph::{Graph, Node, Operator, Output, Parties};
use std::alloc::{AllocError, Global};
use trust_sets::{Trust, derive_trust};
use words::Column;

/// The lines of a graph's nodes and outputs.
pub(crate) fn plan_text(alloc: Global, graph: &Graph) -> Result<Vec<u8>, AllocError>
    ensures { IfOk result (λ text. text.items ≡ plan_text graph.now) }
{
    let trust = derive_trust(alloc, graph)?;
    let mut text = Vec::new(alloc);
    add_nodes(alloc, graph, &trust, &mut text)?;
    add_outputs(alloc, graph, &mut text)?;
    Ok(text)
}

/// Adds the line of each node.
fn add_nodes(
    alloc: Global,
    graph: &Graph,
    trust: &Trust,
    text: &mut Vec<u8>,
) -> Result<(), AllocError>
    ensures { OnOk result (text.new.items ≡ text.old.items ++ node_lines trust.now.known 0 graph.now.nodes) }
{
    for (number, node) in graph.nodes().iter().enumerate() {
        add_node(alloc, node, number as u32, trust, text)?;
    }
    Ok(())
}

/// Adds the line of the node with this number.
fn add_node(
    alloc: Global,
    node: &Node,
    number: u32,
    trust: &Trust,
    text: &mut Vec<u8>,
) -> Result<(), AllocError>
    requires { length node.now.columns < 2 ^ 32 }
    ensures { OnOk result (text.new.items ≡ text.old.items ++ node_line node.now (known_at trust.now.known number)) }
{
    let word = operator_word(&node.shape);
    let rows = node.rows;
    let set = set_text(trust.rows_of(number));
    let behind = format!(in alloc; " {word} rows {rows} know {set}")?;
    text.extend_from_slice(node.name.bytes())?;
    text.extend_from_slice(behind.as_bytes())?;
    add_columns(node.columns.as_slice(), number, trust, text)?;
    text.push(b'\n')?;
    Ok(())
}

/// Adds the columns of the node with this number.
fn add_columns(
    columns: &[Column],
    number: u32,
    trust: &Trust,
    text: &mut Vec<u8>,
) -> Result<(), AllocError>
    requires { length columns.now < 2 ^ 32 }
    ensures { OnOk result (text.new.items ≡ text.old.items ++ columns_text (known_at trust.now.known number) 0 columns.now) }
{
    for (place, column) in columns.iter().enumerate() {
        let set = trust.trust_of(number, place as u32);
        add_column(column, set, text)?;
    }
    Ok(())
}

/// Adds a column that these may know.
fn add_column(column: &Column, set: Parties, text: &mut Vec<u8>) -> Result<(), AllocError>
    ensures { OnOk result (text.new.items ≡ text.old.items ++ column_text column.now set) }
{
    text.push(b' ')?;
    text.extend_from_slice(column.name.bytes())?;
    text.push(b' ')?;
    text.extend_from_slice(set_text(set).as_bytes())
}

/// Adds the line of each output.
fn add_outputs(alloc: Global, graph: &Graph, text: &mut Vec<u8>) -> Result<(), AllocError>
    ensures { OnOk result (text.new.items ≡ text.old.items ++ flat_map (output_line graph.now.nodes) graph.now.outputs) }
{
    for output in graph.outputs() {
        add_output(alloc, graph.nodes(), output, text)?;
    }
    Ok(())
}

/// Adds the line of an output.
fn add_output(
    alloc: Global,
    nodes: &[Node],
    output: &Output,
    text: &mut Vec<u8>,
) -> Result<(), AllocError>
    ensures { OnOk result (text.new.items ≡ text.old.items ++ output_line nodes.now output.now) }
{
    let set = set_text(output.recipients);
    let rows = declared_rows(nodes, output.node);
    let behind = format!(in alloc; " to {set} rows {rows}\n")?;
    text.extend_from_slice(b"output ")?;
    text.extend_from_slice(name_of(nodes, output.node))?;
    text.extend_from_slice(behind.as_bytes())
}

/// The declared rows of the node with this number.
fn declared_rows(nodes: &[Node], number: u32) -> u32
    ensures { result ≡ rows_at nodes.now number }
{
    match nodes.get(number as usize) {
        Some(node) => node.rows,
        None => 0,
    }
}

/// The word of a node's statement.
fn operator_word(shape: &Operator) -> &'static str
    ensures { result.now ≡ operator_word shape.now }
{
    match shape {
        Operator::Relation(_) => "relation",
        Operator::Filter(_) => "filter",
        Operator::Select(_) => "select",
        Operator::Concat(_) => "concat",
        Operator::Join(_) => "join",
        Operator::Group(_) => "group",
        Operator::Distinct(_) => "distinct",
    }
}

/// The digits of a set's parties in rising order, or a dash where it has none.
fn set_text(set: Parties) -> &'static str
    ensures { result.now ≡ set_text set }
{
    match (set.contains(1), set.contains(2), set.contains(3)) {
        (false, false, false) => "-",
        (true, false, false) => "1",
        (false, true, false) => "2",
        (false, false, true) => "3",
        (true, true, false) => "12",
        (true, false, true) => "13",
        (false, true, true) => "23",
        (true, true, true) => "123",
    }
}
