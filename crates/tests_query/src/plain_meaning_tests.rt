ghost use Rattle.std.specs.Prelude.{IfOk};
ghost use Rattle.plain_meaning.specs.Fits.{IsWorldOf};
ghost use Rattle.plain_meaning.specs.Plain.{rows_of_tables};

use plain_meaning::{PlainRows, World, plain};
use query_graph::{Graph, Node, Operator, build};
use query_text::read_query;
use std::alloc::{AllocError, Global};
use std::test::Fail;
use tables::Table;
use words::Column;

fn columns_of(alloc: Global, node: &Node) -> Result<Vec<Column>, AllocError> {
    let mut columns = Vec::new(alloc);
    for column in node.columns.as_slice() {
        columns.push(column.clone()?)?;
    }
    Ok(columns)
}

// The file of a relation with these rows; a row of another length is left out.
pub(crate) fn file_of(alloc: Global, node: &Node, rows: &[&[u64]]) -> Result<Table, AllocError> {
    let mut table = Table::new(alloc, columns_of(alloc, node)?);
    for row in rows {
        if row.len() == table.columns().len() {
            table.push(row)?;
        }
    }
    Ok(table)
}

fn is_relation(node: &Node) -> bool {
    matches!(&node.shape, Operator::Relation(_))
}

// A table for each relation, of these rows in order, and of none where there are too few.
fn files_of(alloc: Global, graph: &Graph, files: &[&[&[u64]]]) -> Result<Vec<Table>, AllocError> {
    let mut tables = Vec::new(alloc);
    for node in graph.nodes() {
        if is_relation(node) {
            let rows = files.get(tables.len()).copied().unwrap_or(&[]);
            tables.push(file_of(alloc, node, rows)?)?;
        }
    }
    Ok(tables)
}

fn graph_of(alloc: Global, text: &[u8]) -> Result<Graph, Fail> {
    Ok(build(alloc, &read_query(alloc, text)?)?)
}

pub(crate) fn world_of(alloc: Global, graph: &Graph, files: &[&[&[u64]]]) -> Result<World, Fail>
    ensures { IfOk result (λ world. IsWorldOf graph.now.nodes (rows_of_tables world)) }
{
    match World::new(graph, files_of(alloc, graph, files)?) {
        Ok(world) => Ok(world),
        Err(_) => Err("no world")?,
    }
}

fn run(alloc: Global, text: &[u8], files: &[&[&[u64]]]) -> Result<PlainRows, Fail> {
    let graph = graph_of(alloc, text)?;
    let world = world_of(alloc, &graph, files)?;
    Ok(plain(alloc, &graph, &world)?)
}

pub(crate) fn has_rows(table: &Table, want: &[&[u64]]) -> bool {
    for (number, row) in want.iter().enumerate() {
        if number >= table.rows() || table.row(number) != *row {
            return false;
        }
    }
    table.rows() == want.len()
}

// Whether the last table has these rows.
fn is_last(plain: &PlainRows, want: &[&[u64]]) -> bool {
    match plain.tables.as_slice().last() {
        Some(table) => has_rows(table, want),
        None => false,
    }
}

const SCORES: &[u8] = b"relation people of 1 rows 4 (ssn num, zip num)
relation scores2 of 2 rows 3 (ssn num trust 1, score num)
relation scores3 of 3 rows 3 (ssn num trust 1, score num)
scores = concat scores2 scores3
joined = join people scores on ssn at most 6
byzip = group joined by zip (total = sum score, n = count)
output byzip to 1
";

const FILES: &[&[&[u64]]] = &[
    &[&[100, 2139], &[101, 2139], &[102, 94110], &[103, 10001]],
    &[&[100, 700], &[101, 650], &[102, 600]],
    &[&[100, 710], &[102, 640], &[999, 500]],
];

#[test]
fn gives_scores_by_zip(rt: HostRuntime) -> Result<(), Fail> {
    let plain = run(rt.alloc(), SCORES, FILES)?;
    assert_eq!(rt; plain.over, None);
    assert_eq!(rt; plain.tables.len(), 6);
    assert!(rt; is_last(&plain, &[&[2139, 2060, 3], &[94110, 1240, 2]]));
    Ok(())
}

#[test]
fn lists_no_product_above_its_bound(rt: HostRuntime) -> Result<(), Fail> {
    let rows: [&[u64]; 4096] = [&[7]; 4096];
    let text = b"relation r of 1 rows 4096 (k num)
j = join r r on k at most 10
d = distinct j
output d to 1
";
    let plain = run(rt.alloc(), text, &[&rows])?;
    assert_eq!(rt; plain.over, Some(1));
    assert_eq!(rt; plain.tables.len(), 1);
    Ok(())
}

const FOUR_ROWS: &[&[&[u64]]] = &[&[&[7, 1], &[8, 2], &[7, 3], &[9, 4]]];

// Statements over four rows, each with the first node above its bound.
const BOUNDS: &[(&[u8], Option<u32>)] = &[
    (b"n = filter r where k < 9 at most 3\n", None),
    (b"n = filter r where k < 9 at most 2\n", Some(1)),
    (b"n = group r by k (c = count) at most 3\n", None),
    (b"n = group r by k (c = count) at most 2\n", Some(1)),
    (b"n = distinct r at most 4\n", None),
    (b"n = distinct r at most 3\n", Some(1)),
    (
        b"s = select r (k, w = k)\nn = join r s on k at most 6\n",
        None,
    ),
    (
        b"s = select r (k, w = k)\nn = join r s on k at most 5\n",
        Some(2),
    ),
];

fn text_of(alloc: Global, statements: &[u8]) -> Result<Vec<u8>, AllocError> {
    let mut text = Vec::new(alloc);
    text.extend_from_slice(b"relation r of 1 rows 4 (k num, v num)\n")?;
    text.extend_from_slice(statements)?;
    text.extend_from_slice(b"output n to 1\n")?;
    Ok(text)
}

// Whether this is the first node above its bound, in a query with these statements.
fn is_over(alloc: Global, statements: &[u8], wanted: Option<u32>) -> Result<bool, Fail> {
    let text = text_of(alloc, statements)?;
    let plain = run(alloc, &text, FOUR_ROWS)?;
    Ok(plain.over == wanted)
}

// The first of the cases that ends elsewhere.
fn first_other(alloc: Global, cases: &[(&[u8], Option<u32>)]) -> Result<Option<usize>, Fail> {
    for (index, (statements, wanted)) in cases.iter().enumerate() {
        if !is_over(alloc, statements, *wanted)? {
            return Ok(Some(index));
        }
    }
    Ok(None)
}

#[test]
fn ends_at_the_first_node_above_its_bound(rt: HostRuntime) -> Result<(), Fail> {
    assert_eq!(rt; first_other(rt.alloc(), BOUNDS)?, None);
    Ok(())
}

#[test]
fn gives_tables_back_that_are_no_world(rt: HostRuntime) -> Result<(), Fail> {
    let alloc = rt.alloc();
    let graph = graph_of(alloc, SCORES)?;
    let mut files = files_of(alloc, &graph, &[])?;
    let _ = files.pop();
    assert!(rt; World::new(&graph, files).is_err());
    Ok(())
}
