//! The lines of refusals, for every command that compiles a query.

ghost use Rattle.std.specs.Prelude.{◌≡◌, ◌++◌, IfOk, slice_get};
ghost use Rattle.lowering.specs.Lines.{column_of_node, graph_refused, name_of_column, name_of_node, text_refused, trust_refused, unreleased, untrusted};

use query_graph::{GraphFault, Node};
use std::alloc::{AllocError, Global};
use trust_sets::TrustFault;
use words::Column;

/// The line of a text that stops being a query here.
pub fn text_refused(alloc: Global, line: u32, column: u32) -> Result<Vec<u8>, AllocError>
    ensures { IfOk result (λ bytes. bytes.items ≡ text_refused line column) }
{
    let text = format!(in alloc; "refused: Q1 line {line} column {column}: text\n")?;
    Ok(text.into_bytes())
}

/// The line of a rule that a query's graph breaks. For want of memory, which is no rule, it is empty.
pub fn graph_refused(alloc: Global, fault: &GraphFault) -> Result<Vec<u8>, AllocError>
    ensures { IfOk result (λ bytes. bytes.items ≡ graph_refused fault.now) }
{
    let text = match fault {
        GraphFault::Unknown { line, name } => {
            let before = format!(in alloc; "refused: Q2 line {line}: ")?;
            return around(alloc, &before, name.bytes(), " is unknown\n");
        }
        GraphFault::Taken { line, name } => {
            let before = format!(in alloc; "refused: Q3 line {line}: ")?;
            return around(alloc, &before, name.bytes(), " is taken\n");
        }
        GraphFault::Kind { line } => format!(in alloc; "refused: Q4 line {line}: kind\n")?,
        GraphFault::Shape { line } => format!(in alloc; "refused: Q5 line {line}: shape\n")?,
        GraphFault::Size { line } => format!(in alloc; "refused: Q6 line {line}: size\n")?,
        GraphFault::NoOutput => format!(in alloc; "refused: Q10: no output\n")?,
        GraphFault::Memory => String::new(alloc),
    };
    Ok(text.into_bytes())
}

/// The line of a statement that asks for more than trust or release allows.
pub fn trust_refused(
    alloc: Global,
    nodes: &[Node],
    fault: &TrustFault,
) -> Result<Vec<u8>, AllocError>
    ensures { IfOk result (λ bytes. bytes.items ≡ trust_refused nodes.now fault.now) }
{
    match fault {
        TrustFault::Trust {
            line,
            node: _,
            origin,
            party,
            column,
        } => untrusted(alloc, nodes, *line, *origin, *party, *column),
        TrustFault::Release {
            line,
            output: _,
            party,
            relation,
        } => unreleased(alloc, nodes, *line, *party, *relation),
    }
}

/// The line of a statement that names a party for work that it isn't trusted with.
fn untrusted(
    alloc: Global,
    nodes: &[Node],
    line: u32,
    origin: u32,
    party: u8,
    column: u32,
) -> Result<Vec<u8>, AllocError>
    ensures { IfOk result (λ bytes. bytes.items ≡ untrusted nodes.now line origin party column) }
{
    let before = format!(in alloc; "refused: Q8 line {line}: party {party} isn't trusted with ")?;
    let behind = around(alloc, "", name_of(nodes, origin), "\n")?;
    let mut text = around(alloc, &before, column_of(nodes, origin, column), " of ")?;
    text.extend_from_slice(&behind)?;
    Ok(text)
}

/// The line of an output to a party to which a relation under it isn't released.
fn unreleased(
    alloc: Global,
    nodes: &[Node],
    line: u32,
    party: u8,
    relation: u32,
) -> Result<Vec<u8>, AllocError>
    ensures { IfOk result (λ bytes. bytes.items ≡ unreleased nodes.now line party relation) }
{
    let before = format!(in alloc;
        "refused: Q9 line {line}: party {party} isn't in the release set of "
    )?;
    around(alloc, &before, name_of(nodes, relation), "\n")
}

/// The name of the node with this number.
pub fn name_of(nodes: &[Node], number: u32) -> &[u8]
    ensures { result.now ≡ name_of_node (slice_get nodes.now number) }
{
    match nodes.get(number as usize) {
        Some(node) => node.name.bytes(),
        None => &[],
    }
}

/// The name of a column of the node with this number.
fn column_of(nodes: &[Node], number: u32, column: u32) -> &[u8]
    ensures { result.now ≡ column_of_node (slice_get nodes.now number) column }
{
    match nodes.get(number as usize) {
        Some(node) => column_name(node.columns.as_slice(), column),
        None => &[],
    }
}

/// The name of the column with this number.
fn column_name(columns: &[Column], column: u32) -> &[u8]
    ensures { result.now ≡ name_of_column (slice_get columns.now column) }
{
    match columns.get(column as usize) {
        Some(column) => column.name.bytes(),
        None => &[],
    }
}

/// Bytes between two texts.
pub fn around(alloc: Global, before: &str, bytes: &[u8], after: &str) -> Result<Vec<u8>, AllocError>
    ensures { IfOk result (λ line. line.items ≡ before.now ++ (bytes.now ++ after.now)) }
{
    let mut line = Vec::from_slice(alloc, before.as_bytes())?;
    line.extend_from_slice(bytes)?;
    line.extend_from_slice(after.as_bytes())?;
    Ok(line)
}
