//! The answers of a query over the tables of its relations.

ghost use Rattle.std.specs.Prelude.{◌≡◌, ◌<◌, ◌++◌, List, ℕ, Ok, All, IfOk, OnOk, length, map, None};
ghost use Rattle.plain_meaning.specs.Fits.{AreFiles};
ghost use Rattle.conclave_top.specs.Answers.{AreNodeTables, answer, answers, output_text, printed};
ghost use Rattle.conclave_top.specs.Bounds.{first_bound};

use plain_meaning::{World, plain};
use query_graph::{Graph, Node, Output};
use std::alloc::{AllocError, Global};
use tables::{Table, answer_text};

/// What is printed of a graph without a bound over the tables of its relations.
pub(crate) fn answers(
    alloc: Global,
    graph: &Graph,
    tables: Vec<Table>,
) -> Result<Vec<u8>, AllocError>
    requires unbounded { first_bound graph.now.nodes ≡ None }
    requires files { AreFiles graph.now.nodes tables.items }
    ensures { IfOk result (λ text. text.items ≡ printed graph.now tables.items) }
{
    let Ok(world) = World::new(graph, tables) else {
        unreachable!();
    };
    let rows = plain(alloc, graph, &world)?;
    print_all(alloc, graph, rows.tables.as_slice())
}

/// What is printed of a graph's outputs, by the tables of all nodes.
fn print_all(alloc: Global, graph: &Graph, tables: &[Table]) -> Result<Vec<u8>, AllocError>
    requires { AreNodeTables graph.now.nodes tables.now }
    ensures { IfOk result (λ text. text.items ≡ answers graph.now.nodes (map (λ t. t.rows) tables.now) graph.now.outputs) }
{
    let mut text = Vec::new(alloc);
    for output in graph.outputs() {
        print_output(alloc, graph.nodes(), tables, output, &mut text)?;
    }
    Ok(text)
}

/// Adds what is printed of an output.
fn print_output(
    alloc: Global,
    nodes: &[Node],
    tables: &[Table],
    output: &Output,
    text: &mut Vec<u8>,
) -> Result<(), AllocError>
    requires tables { AreNodeTables nodes.now tables.now }
    requires within { output.now.node < length nodes.now }
    ensures { OnOk result (text.new.items ≡ text.old.items ++ output_text nodes.now (map (λ t. t.rows) tables.now) output.now) }
{
    let number = output.node as usize;
    print_table(alloc, &nodes[number], &tables[number], text)
}

/// Adds the name of a node on a line, and the text of its table.
fn print_table(
    alloc: Global,
    node: &Node,
    table: &Table,
    text: &mut Vec<u8>,
) -> Result<(), AllocError>
    requires { table.now.columns ≡ node.now.columns }
    ensures { OnOk result (text.new.items ≡ text.old.items ++ answer node.now table.now.rows) }
{
    text.extend_from_slice(node.name.bytes())?;
    text.push(b'\n')?;
    let answer = answer_text(alloc, table)?;
    text.extend_from_slice(&answer)
}
