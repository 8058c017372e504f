//! The tables of all nodes.
#![tactic(auto)]

ghost use Rattle.std.specs.Prelude.{◌<◌, IfOk};
ghost use Rattle.plain_meaning.specs.Fits.{IsWorldOf};
ghost use Rattle.plain_meaning.specs.Plain.{IsPlain, rows_of_tables};

use crate::node::{is_over, node_table};
use crate::world::World;
use listed::Listed;
use query_graph::Graph;
use std::alloc::{AllocError, Global};
use tables::Table;

/// The tables of a graph's first nodes, in order: of all of them, or of those before the first with more rows than its
/// `at most`, whose number is in `over`.
#[derive(Debug, Drop)]
pub struct PlainRows {
    pub tables: Listed<Table>,
    pub over: Option<u32>,
}

/// The plain rows of each node, up to the first with more rows than its `at most`; of that node no more than one row
/// above the bound is listed, and none is given.
pub fn plain(alloc: Global, graph: &Graph, world: &World) -> Result<PlainRows, AllocError>
    requires { IsWorldOf graph.now.nodes (rows_of_tables world.now) }
    ensures { IfOk result (λ plain. IsPlain graph.now.nodes (rows_of_tables world.now) plain.tables plain.over) }
{
    let mut tables = Vec::new(alloc);
    let mut relation = 0;
    for (number, node) in graph.nodes().iter().enumerate() {
        let table = node_table(alloc, node, world, relation, &tables)?;
        if is_over(&node.shape, &table) {
            return Ok(PlainRows {
                tables: Listed::from_vec(tables),
                over: Some(number as u32),
            });
        }
        if node.shape.is_relation() {
            relation += 1;
        }
        tables.push(table)?;
    }
    Ok(PlainRows {
        tables: Listed::from_vec(tables),
        over: None,
    })
}
