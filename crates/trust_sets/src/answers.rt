//! What a party gets in two worlds.
#![tactic(auto)]

ghost use Rattle.std.specs.Prelude.{◌≡◌, ◌<◌, ◌↔◌, true, length, take, IsTrue, IfOk};
ghost use Rattle.bags.specs.Bag.{SameBag};
ghost use Rattle.query_graph.specs.Parties.{has};
ghost use Rattle.listed.specs.Lists.{lent};
ghost use Rattle.plain_meaning.specs.Fits.{IsWorldOf};
ghost use Rattle.plain_meaning.specs.Meaning.{meanings};
ghost use Rattle.plain_meaning.specs.Plain.{rows_in, rows_of_tables};
ghost use Rattle.trust_sets.specs.Differs.{FirstAnswer, IsWithinBounds};

use crate::cut_rows::same_bag;
use listed::Listed;
use plain_meaning::{World, plain};
use query_graph::{Graph, Output};
use std::alloc::{AllocError, Global};
use tables::Table;

// The tables of all nodes.
fn all_tables(alloc: Global, graph: &Graph, world: &World) -> Result<Listed<Table>, AllocError>
    requires world { IsWorldOf graph.now.nodes (rows_of_tables world.now) }
    requires within { IsWithinBounds graph.now.nodes (rows_of_tables world.now) }
    ensures count { IfOk result (λ tables. length tables ≡ length graph.now.nodes) }
    ensures rows { IfOk result (λ tables. rows_of_tables tables
        ≡ take (length graph.now.nodes) (meanings graph.now.nodes (rows_of_tables world.now))) }
{
    Ok(plain(alloc, graph, world)?.tables)
}

// Whether what the party gets of an output is the same bag of rows.
fn answer_agrees(
    alloc: Global,
    output: &Output,
    party: u8,
    tables: &[Table],
    others: &[Table],
) -> Result<bool, AllocError>
    requires tables { output.now.node < length tables.now }
    requires others { output.now.node < length others.now }
    ensures { IfOk result (λ same. IsTrue same ↔ (has output.now.recipients party ≡ true
        → SameBag (rows_in tables.now output.now.node) (rows_in others.now output.now.node))) }
{
    if !output.recipients.contains(party) {
        return Ok(true);
    }
    let node = output.node as usize;
    let left = tables[node].lent_rows(alloc)?;
    let right = others[node].lent_rows(alloc)?;
    Ok(same_bag(left, right))
}

// The node of the first output that the party gets differently.
pub(crate) fn first_answer(
    alloc: Global,
    graph: &Graph,
    party: u8,
    world: &World,
    other: &World,
) -> Result<Option<u32>, AllocError>
    requires world { IsWorldOf graph.now.nodes (rows_of_tables world.now) }
    requires other { IsWorldOf graph.now.nodes (rows_of_tables other.now) }
    requires within { IsWithinBounds graph.now.nodes (rows_of_tables world.now) }
    requires other_within { IsWithinBounds graph.now.nodes (rows_of_tables other.now) }
    ensures { IfOk result (λ first. FirstAnswer graph.now party (rows_of_tables world.now) (rows_of_tables other.now) first) }
{
    let tables = all_tables(alloc, graph, world)?;
    let others = all_tables(alloc, graph, other)?;
    for output in graph.outputs() {
        let agrees = answer_agrees(alloc, output, party, tables.as_slice(), others.as_slice())?;
        if !agrees {
            return Ok(Some(output.node));
        }
    }
    Ok(None)
}
