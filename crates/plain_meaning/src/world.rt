//! The tables of a graph's relations.
#![tactic(auto)]

ghost use Rattle.std.specs.Prelude.{◌≡◌, ◌<◌, ◌↔◌, IsTrue, map, length, slice_get, Some, IfOk, IfErr};
ghost use Rattle.tables.specs.Content.{HasWords};
ghost use Rattle.plain_meaning.specs.Fits.{AreFiles, IsFileOf, IsWorldOf};
ghost use Rattle.plain_meaning.specs.Plain.{rows_of_tables};

use query_graph::{Graph, Node};
use std::marker::Model;
use tables::Table;
use words::{Column, Kind};

/// The tables of a graph's relations, seen as their list, in the order of the text. Their rows are of words below 2^64.
#[derive(Debug, Drop)]
pub struct World {
    tables: Vec<Table>,
}

impl Model for World {
    ghost use Rattle.std.specs.Prelude.{List};
    ghost use Rattle.tables.specs.Content.{Content};
    ghost use Rattle.plain_meaning.specs.Fits.{AreOfWords};

    ghost Value = { List Content };

    ghost view = { λ world. world.tables.items };

    ghost invariant = { λ world. AreOfWords world.tables.items };
}

impl World {
    #[tactic(auto, using(crate::proofs::Files::world_of_files, crate::proofs::Files::words_of_files))]
    /// The world of these tables, one for each relation in the order of the text.
    ///
    /// Gives the tables back where there aren't as many as relations, or one has other columns than its relation or
    /// more rows.
    pub fn new(graph: &Graph, tables: Vec<Table>) -> Result<World, Vec<Table>>
        ensures ok { IfOk result (λ world.
            (world ≡ tables.items) × AreFiles graph.now.nodes tables.items) }
        ensures fits { IfOk result (λ world. IsWorldOf graph.now.nodes (rows_of_tables world)) }
        ensures err { IfErr result (λ back.
            (back ≡ tables) × ¬ (AreFiles graph.now.nodes tables.items)) }
    {
        if are_files(graph.nodes(), &tables) {
            Ok(World { tables })
        } else {
            Err(tables)
        }
    }

    /// The table of a relation, by its number from 0 in the order of the text.
    pub fn table(&self, relation: usize) -> &Table
        requires { relation < length self.now }
        ensures file { slice_get self.now relation ≡ Some result.now }
        ensures words { HasWords result.now }
    {
        &self.tables[relation]
    }
}

// Whether these are the tables of the nodes' relations.
fn are_files(nodes: &[Node], tables: &[Table]) -> bool
    ensures { IsTrue result ↔ AreFiles nodes.now tables.now }
{
    let mut number = 0;
    for node in nodes {
        if node.shape.is_relation() {
            if number >= tables.len() || !is_file_of(node, &tables[number]) {
                return false;
            }
            number += 1;
        }
    }
    number == tables.len()
}

fn is_file_of(node: &Node, table: &Table) -> bool
    ensures { IsTrue result ↔ IsFileOf node.now table.now }
{
    same_columns(table.columns(), node.columns.as_slice()) && table.rows() <= node.rows as usize
}

// Whether both are the same columns in the same order.
fn same_columns(left: &[Column], right: &[Column]) -> bool
    ensures { IsTrue result ↔ (left.now ≡ right.now) }
{
    if left.len() != right.len() {
        return false;
    }
    for (number, column) in left.iter().enumerate() {
        if !same_column(column, &right[number]) {
            return false;
        }
    }
    true
}

fn same_column(left: &Column, right: &Column) -> bool
    ensures { IsTrue result ↔ (left.now ≡ right.now) }
{
    left.name.bytes() == right.name.bytes() && same_kind(left.kind, right.kind)
}

fn same_kind(left: Kind, right: Kind) -> bool
    ensures { IsTrue result ↔ (left ≡ right) }
{
    match left {
        Kind::Num => matches!(right, Kind::Num),
        Kind::Text => matches!(right, Kind::Text),
        Kind::Flag => matches!(right, Kind::Flag),
    }
}
