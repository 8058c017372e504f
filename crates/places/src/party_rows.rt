//! The rows of a node that are clear at a party.
#![tactic(auto)]

ghost use Rattle.std.specs.Prelude.{◌≡◌, ◌<◌, ◌++◌, ℕ, List, length, IfOk, OnOk};
ghost use Rattle.plain_meaning.specs.Columns.{columns_at};
ghost use Rattle.plain_meaning.specs.Plain.{IsPlain};
ghost use Rattle.rewrites.specs.Rewritten.{rewritten_of};
ghost use Rattle.places.specs.Excess.{ArePlain, party_rows};

use crate::bounds::is_clear_at;
use plain_meaning::PlainRows;
use query_graph::Graph;
use rewrites::{Rewritten, nodes_have_parts, part_table, parts_are_rows};
use std::alloc::{AllocError, Global};
use tables::Table;
use words::Column;

fn copy_of(alloc: Global, columns: &[Column]) -> Result<Vec<Column>, AllocError>
    ensures { IfOk result (λ copy. copy.items ≡ columns.now) }
{
    let mut copy = Vec::new(alloc);
    for column in columns {
        copy.push(column.clone()?)?;
    }
    Ok(copy)
}

// Adds the rows of a table with as many columns.
fn add_rows(pooled: &mut Table, more: &Table) -> Result<(), AllocError>
    requires { length more.now.columns ≡ length pooled.old.columns }
    ensures columns { OnOk result (pooled.new.columns ≡ pooled.old.columns) }
    ensures rows { OnOk result (pooled.new.rows ≡ pooled.old.rows ++ more.now.rows) }
{
    for number in 0..more.rows() {
        pooled.push(more.row(number))?;
    }
    Ok(())
}

// The rows of all parts of a node that are clear at a party, one part after the other.
pub(crate) fn party_table(
    alloc: Global,
    graph: &Graph,
    rewritten: &Rewritten,
    rows: &PlainRows,
    node: u32,
    party: u8,
) -> Result<Table, AllocError>
    requires made { rewritten.now ≡ rewritten_of graph.now }
    requires rows { ArePlain graph.now.nodes rows.now.tables rows.now.over }
    requires node { node < length rows.now.tables }
    ensures columns { IfOk result (λ table. table.columns ≡ columns_at graph.now.nodes node) }
    ensures rows { (world : List (List (List ℕ))) → IsPlain graph.now.nodes world rows.now.tables rows.now.over
        → IfOk result (λ table. table.rows ≡ party_rows graph.now world node party) }
{
    parts_are_rows();
    nodes_have_parts();
    let columns = graph.nodes()[node as usize].columns.as_slice();
    let mut pooled = Table::new(alloc, copy_of(alloc, columns)?);
    for (number, part) in rewritten.parts(node).as_slice().iter().enumerate() {
        if is_clear_at(part, party) {
            let Ok(part) = u32::try_from(number) else {
                return Err(AllocError);
            };
            let table = part_table(alloc, graph, rewritten, rows, node, part)?;
            add_rows(&mut pooled, &table)?;
        }
    }
    Ok(pooled)
}
