//! The rows of an answer in a party's slots.

ghost use Rattle.std.specs.Prelude.{◌≡◌, ◌+◌, ◌<◌, ◌^◌, ◌++◌, Some, IfOk, IsTrue, OnOk, length, map, slice_get, slice_index};
ghost use Rattle.std.specs.List.{range_with_len};
ghost use Rattle.plain_meaning.specs.Columns.{columns_at};
ghost use Rattle.query_graph.specs.declared.node.Output.{Output};
ghost use Rattle.step_lists.specs.Layout.{party_of};
ghost use Rattle.step_lists.specs.Open.{item};
ghost use Rattle.step_lists.specs.Rules.{is_party};
ghost use Rattle.step_lists.specs.Shapes.{word_lists};
ghost use Rattle.tapes.specs.RowLaws.{row_across};
ghost use Rattle.lowering.specs.Plan.{answer_rows, standing_rows};

use crate::plan::Plan;
use lanes::Party;
use query_graph::{Graph, Node};
use std::alloc::{AllocError, Global};
use tables::Table;
use words::Column;

/// The rows of an output in the slots of one of its recipients, of a run that didn't stop: those at the places whose valid
/// word isn't 0, under the columns of the output's node. Another party has none.
pub fn answer_table(
    alloc: Global,
    plan: &Plan,
    output: u32,
    party: u8,
    slots: &Vec<Vec<u64>>,
) -> Result<Table, AllocError>
    requires output { output < length plan.now.graph.outputs }
    requires party { IsTrue (is_party party) }
    ensures { IfOk result (λ table. (o : Output) → slice_get plan.now.graph.outputs output ≡ Some o
        → table ≡ record { columns = columns_at plan.now.graph.nodes o.node; rows = answer_rows plan.now o output (party_of party) (word_lists slots.now) }) }
{
    let node = node_of(plan.graph(), output);
    let mut table = Table::new(alloc, copy_of(alloc, node.columns.as_slice())?);
    let Some(first) = plan.answer_at(output, party_of(party)) else {
        return Ok(table);
    };
    add_rows(alloc, &mut table, slots, first as usize)?;
    Ok(table)
}

// The node of an output.
fn node_of(graph: &Graph, output: u32) -> &Node
    requires { output < length graph.now.outputs }
    ensures node { (o : Output) → slice_get graph.now.outputs output ≡ Some o → slice_get graph.now.nodes o.node ≡ Some result.now }
    ensures few { length result.now.columns < 33 }
{
    let output = graph.outputs()[output as usize];
    &graph.nodes()[output.node as usize]
}

// The party of a number, 1 to 3.
fn party_of(party: u8) -> Party
    ensures { result ≡ party_of party }
{
    match party {
        1 => Party::First,
        2 => Party::Second,
        _ => Party::Third,
    }
}

// Adds the rows in slots from this one on: one for each column, and then that of the valid words.
fn add_rows(
    alloc: Global,
    table: &mut Table,
    slots: &Vec<Vec<u64>>,
    first: usize,
) -> Result<(), AllocError>
    requires { first + length table.old.columns < 2 ^ 64 }
    ensures columns { OnOk result (table.new.columns ≡ table.old.columns) }
    ensures rows { OnOk result (table.new.rows ≡ table.old.rows ++ standing_rows (map (item (word_lists slots.now)) (range_with_len first (length table.old.columns))) (item (word_lists slots.now) (first + length table.old.columns))) }
{
    let width = table.columns().len();
    let valid = slot_at(slots, first + width);
    for place in 0..valid.len() {
        if valid[place] != 0 {
            let row = row_of(alloc, slots, first, width, place)?;
            table.push(row.as_slice())?;
        }
    }
    Ok(())
}

// The words of so many slots at a place.
fn row_of(
    alloc: Global,
    slots: &Vec<Vec<u64>>,
    first: usize,
    width: usize,
    place: usize,
) -> Result<Vec<u64>, AllocError>
    requires { first + width < 2 ^ 64 }
    ensures row { IfOk result (λ row. row.items ≡ row_across (map (item (word_lists slots.now)) (range_with_len first width)) place) }
    ensures wide { IfOk result (λ row. length row.items ≡ width) }
{
    let mut row = Vec::with_capacity(alloc, width)?;
    for column in 0..width {
        row.push(word_at(slot_at(slots, first + column), place))?;
    }
    Ok(row)
}

// The words of a slot, none where there is no such slot.
fn slot_at(slots: &Vec<Vec<u64>>, slot: usize) -> &[u64]
    ensures { result.now ≡ item (word_lists slots.now) slot }
{
    match slots.get(slot) {
        Some(words) => words.as_slice(),
        None => &[],
    }
}

// The word at a place, 0 where there is none.
fn word_at(words: &[u64], place: usize) -> u64
    ensures { result ≡ slice_index words.now place }
{
    match words.get(place) {
        Some(word) => *word,
        None => 0,
    }
}

// A copy of columns.
fn copy_of(alloc: Global, columns: &[Column]) -> Result<Vec<Column>, AllocError>
    ensures { IfOk result (λ copy. copy.items ≡ columns.now) }
{
    let mut copy = Vec::new(alloc);
    for column in columns {
        copy.push(column.clone()?)?;
    }
    Ok(copy)
}
