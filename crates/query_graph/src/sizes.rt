//! Limits on sizes, and rows under bounds.
#![tactic(auto)]

ghost use Rattle.std.specs.Prelude.{◌≡◌, ◌+◌, ◌*◌, ◌≤◌, ◌&&◌, nat_le, map, sum};
ghost use Rattle.std.specs.List.{list_all};
ghost use Rattle.query_graph.specs.Names.{node_rows};
ghost use Rattle.query_graph.specs.Columns.{columns_of};
ghost use Rattle.query_graph.specs.Sizes.{bounded, bounded_parts, cell_limit, cells_of, column_limit, row_limit, sizes_fit, constant_fits, constants_fit, counts_fit, group_rows, is_bound, is_row_count, item_constants_fit, declared_rows, test_constants_fit};

use crate::nodes::Nodes;
use query_text::{Body, Bytes, ItemText, OperandText, TestText};
use words::Column;

/// The most rows of a node, and the most of a bound.
const ROW_LIMIT: u64 = 65536;

/// The most columns of a node.
const COLUMN_LIMIT: usize = 32;

/// The most cells of all nodes.
const CELL_LIMIT: u64 = 4194304;

/// The most bytes of a text constant.
const TEXT_LIMIT: usize = 8;

// Whether a number of rows can be written.
fn is_row_count(rows: u64) -> bool
    ensures { result ≡ is_row_count rows }
{
    rows >= 1 && rows <= ROW_LIMIT
}

// Whether a bound is missing or can be written.
fn is_bound(bound: Option<u64>) -> bool
    ensures { result ≡ is_bound bound }
{
    match bound {
        None => true,
        Some(most) => is_row_count(most),
    }
}

// Rows under a bound.
fn bounded(bound: Option<u64>, rows: u128) -> u128
    ensures { result ≡ bounded bound rows }
{
    match bound {
        None => rows,
        Some(most) => rows.min(u128::from(most)),
    }
}

// Rows of a group under a bound on each party's own groups.
fn bounded_parts(bound: Option<u64>, rows: u128) -> u128
    ensures { result ≡ bounded_parts bound rows }
{
    match bound {
        None => rows,
        Some(most) => rows.min(3 * u128::from(most)),
    }
}

// Rows of a group before its own bound.
fn group_rows(keys: &[Bytes], parts: Option<u64>, rows: u128) -> u128
    ensures { result ≡ group_rows keys.now parts rows }
{
    if keys.is_empty() {
        1
    } else {
        bounded_parts(parts, rows)
    }
}

// The sum of the rows of these nodes.
fn sum_rows(nodes: &Nodes, names: &[Bytes]) -> u128
    ensures { result ≡ sum (map (node_rows nodes.now) names.now) }
{
    let mut rows = 0;
    for name in names {
        rows += u128::from(nodes.rows(name));
    }
    rows
}

/// The declared rows of a statement's node.
pub(crate) fn declared_rows(nodes: &Nodes, body: &Body) -> u128
    ensures { result ≡ declared_rows nodes.now body.now }
{
    match body {
        Body::Relation(r) => u128::from(r.rows),
        Body::Filter(f) => bounded(f.at_most, u128::from(nodes.rows(&f.source))),
        Body::Select(s) => u128::from(nodes.rows(&s.source)),
        Body::Concat(c) => sum_rows(nodes, c.sources.as_slice()),
        Body::Join(j) => {
            let left = u128::from(nodes.rows(&j.left));
            bounded(j.at_most, left * u128::from(nodes.rows(&j.right)))
        }
        Body::Group(g) => {
            let source = u128::from(nodes.rows(&g.source));
            bounded(
                g.at_most,
                group_rows(g.keys.as_slice(), g.parts_at_most, source),
            )
        }
        Body::Distinct(d) => bounded(d.at_most, u128::from(nodes.rows(&d.source))),
        Body::Output(_) => 0,
    }
}

/// Whether the sizes of a statement fit, behind nodes of so many cells.
pub(crate) fn sizes_fit(nodes: &Nodes, cells: u64, body: &Body, columns: &[Column]) -> bool
    requires cells { cells ≡ cells_of nodes.now }
    requires few_cells { cells ≤ 4194304 }
    requires columns { columns.now ≡ columns_of nodes.now body.now }
    ensures { result ≡ sizes_fit nodes.now body.now }
{
    counts_fit(body)
        && constants_fit(body)
        && node_fits(cells, declared_rows(nodes, body), columns.len())
}

// Whether a node of this size keeps the limits behind nodes of so many cells.
fn node_fits(cells: u64, rows: u128, columns: usize) -> bool
    requires { cells ≤ 4194304 }
    ensures { result ≡ (nat_le rows row_limit && nat_le columns column_limit && nat_le (cells + rows * (columns + 1)) cell_limit) }
{
    rows <= u128::from(ROW_LIMIT)
        && columns <= COLUMN_LIMIT
        && cells + rows as u64 * (columns as u64 + 1) <= CELL_LIMIT
}

// Whether the numbers of rows and the bounds that a statement writes are in their limits.
fn counts_fit(body: &Body) -> bool
    ensures { result ≡ counts_fit body.now }
{
    match body {
        Body::Relation(r) => is_row_count(r.rows),
        Body::Filter(f) => is_bound(f.at_most),
        Body::Select(_) => true,
        Body::Concat(_) => true,
        Body::Join(j) => is_bound(j.at_most),
        Body::Group(g) => is_bound(g.parts_at_most) && is_bound(g.at_most),
        Body::Distinct(d) => is_bound(d.at_most),
        Body::Output(_) => true,
    }
}

// Whether the text constants of a statement fit a word.
fn constants_fit(body: &Body) -> bool
    ensures { result ≡ constants_fit body.now }
{
    match body {
        Body::Relation(_) => true,
        Body::Filter(f) => all_test_constants_fit(f.tests.as_slice()),
        Body::Select(s) => all_item_constants_fit(s.items.as_slice()),
        Body::Concat(_) => true,
        Body::Join(_) => true,
        Body::Group(_) => true,
        Body::Distinct(_) => true,
        Body::Output(_) => true,
    }
}

fn constant_fits(operand: &OperandText) -> bool
    ensures { result ≡ constant_fits operand.now }
{
    match operand {
        OperandText::Name(_) => true,
        OperandText::Number(_) => true,
        OperandText::Quoted(text) => text.bytes().len() <= TEXT_LIMIT,
        OperandText::True => true,
        OperandText::False => true,
    }
}

fn test_constants_fit(test: &TestText) -> bool
    ensures { result ≡ test_constants_fit test.now }
{
    constant_fits(&test.left) && constant_fits(&test.right)
}

fn item_constants_fit(item: &ItemText) -> bool
    ensures { result ≡ item_constants_fit item.now }
{
    match item {
        ItemText::Same(_) => true,
        ItemText::Copied(_, operand) => constant_fits(operand),
        ItemText::Computed(_, left, _, right) => constant_fits(left) && constant_fits(right),
    }
}

// Whether the text constants of these tests fit a word.
fn all_test_constants_fit(tests: &[TestText]) -> bool
    ensures { result ≡ list_all test_constants_fit tests.now }
{
    tests.iter().all(|test| test_constants_fit(test))
}

// Whether the text constants of these items fit a word.
fn all_item_constants_fit(items: &[ItemText]) -> bool
    ensures { result ≡ list_all item_constants_fit items.now }
{
    items.iter().all(|item| item_constants_fit(item))
}
