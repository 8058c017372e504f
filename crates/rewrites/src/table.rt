//! The rows of one part of a node.
#![tactic(auto)]

ghost use Rattle.std.specs.Prelude.{◌≡◌, ℕ, ◌<◌, List, length, take, IfOk};
ghost use Rattle.std.specs.List.{All};
ghost use Rattle.plain_meaning.specs.Columns.{columns_at};
ghost use Rattle.plain_meaning.specs.Meaning.{meanings};
ghost use Rattle.plain_meaning.specs.Plain.{IsPlain, rows_of_tables, table_of};
ghost use Rattle.rewrites.specs.Parts.{parts_at};
ghost use Rattle.rewrites.specs.PartRows.{part_rows};
ghost use Rattle.rewrites.specs.PartTables.{AreTablesOf, place_of_part};
ghost use Rattle.rewrites.specs.Rewritten.{rewritten_of};

use crate::part_rows::{filtered, selected, whole};
use crate::rewritten::Rewritten;
use plain_meaning::PlainRows;
use plain_meaning::laws::{nodes_fit_earlier, nodes_have_columns};
use query_graph::{Graph, Operator, nodes_are_written};
use std::alloc::{AllocError, Global};
use tables::Table;

// The source in which a part of a concat lies, and which of its parts it is.
fn place_of_part(rewritten: &Rewritten, sources: &[u32], part: usize) -> (u32, usize)
    requires { All (λ s. s < length rewritten.now.parts) sources.now }
    ensures { result ≡ place_of_part rewritten.now.parts sources.now part }
{
    let mut left = part;
    for source in sources {
        let count = rewritten.parts(*source).len();
        if left < count {
            return (*source, left);
        }
        left -= count;
    }
    (0, left)
}

// The rows of a part, from the tables of the nodes up to this one.
fn rows_of_part(
    alloc: Global,
    graph: &Graph,
    rewritten: &Rewritten,
    tables: &[Table],
    node: u32,
    part: usize,
) -> Result<Table, AllocError>
    requires made { rewritten.now ≡ rewritten_of graph.now }
    requires tables { AreTablesOf graph.now.nodes tables.now }
    requires node { node < length tables.now }
    requires part { part < length (parts_at rewritten.now.parts node) }
    ensures columns { IfOk result (λ made. made.columns ≡ columns_at graph.now.nodes node) }
    ensures rows { (rows : List (List (List ℕ))) → rows_of_tables tables.now ≡ take (length tables.now) rows
        → IfOk result (λ made. made.rows ≡ part_rows graph.now.nodes rows node part) }
{
    nodes_are_written();
    nodes_fit_earlier();
    nodes_have_columns();
    let found = &graph.nodes()[node as usize];
    let columns = found.columns.as_slice();
    if rewritten.parts(node).len() == 1 {
        return whole(alloc, columns, &tables[node as usize]);
    }
    match &found.shape {
        Operator::Filter(filter) => {
            let source = rows_of_part(alloc, graph, rewritten, tables, filter.source, part)?;
            filtered(alloc, columns, filter, &source)
        }
        Operator::Select(select) => {
            let source = rows_of_part(alloc, graph, rewritten, tables, select.source, part)?;
            selected(alloc, columns, select, &source)
        }
        Operator::Concat(concat) => {
            let (source, place) = place_of_part(rewritten, concat.sources.as_slice(), part);
            rows_of_part(alloc, graph, rewritten, tables, source, place)
        }
        Operator::Relation(_) | Operator::Join(_) | Operator::Group(_) | Operator::Distinct(_) => {
            whole(alloc, columns, &tables[node as usize])
        }
    }
}

/// The rows of one part of a node, clear or joint, with the node's columns, in every world whose plain rows these are: of
/// an only part the node's plain rows, of a part of a filter or a select the operator on the source's part, of a part of a
/// concat the source's part.
///
/// The rows have a table for each node up to this one. Takes the memory of a table for each node on the way down.
pub fn part_table(
    alloc: Global,
    graph: &Graph,
    rewritten: &Rewritten,
    rows: &PlainRows,
    node: u32,
    part: u32,
) -> Result<Table, AllocError>
    requires made { rewritten.now ≡ rewritten_of graph.now }
    requires tables { AreTablesOf graph.now.nodes rows.now.tables }
    requires node { node < length rows.now.tables }
    requires part { part < length (parts_at rewritten.now.parts node) }
    ensures { (world : List (List (List ℕ))) → IsPlain graph.now.nodes world rows.now.tables rows.now.over
        → IfOk result (λ made. made ≡ table_of (columns_at graph.now.nodes node) (part_rows graph.now.nodes (meanings graph.now.nodes world) node part)) }
{
    rows_of_part(
        alloc,
        graph,
        rewritten,
        rows.tables.as_slice(),
        node,
        part as usize,
    )
}
