//! An output: its node's table is zeroed, and opened to each recipient.

ghost use Rattle.std.specs.Prelude.{◌≡◌, ◌<◌, ◌+◌, false, true, IfOk, IsTrue, length};
ghost use Rattle.std.specs.List.{range_with_len};
ghost use Rattle.query_graph.specs.IsGraph.{IsOutput};
ghost use Rattle.query_graph.specs.Parties.{has};
ghost use Rattle.step_lists.specs.Rules.{is_party};
ghost use Rattle.lowering.specs.Lowered.{LowersOutput, StoresNodes};
ghost use Rattle.lowering.specs.Pieces.{OpensTo, opening_of, registers_of};

use crate::push::push_step;
use crate::share::joined;
use crate::stored::Stored;
use crate::work::zeroed_table;
use bags::laws::bags_are_equivalence;
use clear_tasks::ClearTask;
use lanes::Three;
use listed::{Listed, Numbers};
use padded::laws::{opened_of_bags, rows_of_ordered, rows_of_zeroed};
use query_graph::{Graph, Output, Parties};
use shared_ops::Joint;
use std::alloc::{AllocError, Global};
use step_lists::laws::{reveals_have_one_order, values_have_shapes};
use step_lists::{Step, StepList};

// The registers of a table: its columns and its valid words.
fn registers_of(alloc: Global, table: &Joint) -> Result<Numbers, AllocError>
    ensures { IfOk result (λ registers. registers ≡ registers_of table.now) }
{
    let mut registers = Vec::with_capacity(alloc, table.columns.len())?;
    for wire in &table.columns {
        registers.push(wire.0)?;
    }
    registers.push(table.valid.0)?;
    Ok(Listed::from_vec(registers))
}

// The places from 0 on.
fn places(alloc: Global, count: usize) -> Result<Numbers, AllocError>
    ensures { IfOk result (λ places. places ≡ range_with_len 0 count) }
{
    let Ok(count) = u32::try_from(count) else {
        return Err(AllocError);
    };
    let mut places = Vec::new(alloc);
    for place in 0..count {
        places.push(place)?;
    }
    Ok(Listed::from_vec(places))
}

// The step that opens a table whole.
fn opening(alloc: Global, table: &Joint, party: u8) -> Result<Step<ClearTask>, AllocError>
    ensures { IfOk result (λ step. step ≡ opening_of party table.now) }
{
    let moved = registers_of(alloc, table)?;
    let shown = places(alloc, moved.len())?;
    Ok(Step::Reveal {
        to: party,
        moved,
        shown,
    })
}

// The first slot in which a recipient gets a table, `None` where the party is none.
fn open_to(
    alloc: Global,
    list: &mut StepList<ClearTask>,
    table: &Joint,
    recipients: Parties,
    party: u8,
) -> Result<Option<u32>, AllocError>
    requires { IsTrue (is_party party) }
    ensures { IfOk result (λ first. OpensTo list.old list.new recipients party table.now first) }
{
    if !recipients.contains(party) {
        return Ok(None);
    }
    let first = list.slots(party);
    push_step(list, opening(alloc, table, party)?)?;
    Ok(Some(first))
}

/// The segment of an output: for each recipient the first slot of its answer.
pub(crate) fn lower_output(
    alloc: Global,
    list: &mut StepList<ClearTask>,
    graph: &Graph,
    parts: &[Stored],
    output: &Output,
) -> Result<Three<Option<u32>>, AllocError>
    requires stores { StoresNodes graph.now list.old parts.now }
    requires all { length parts.now ≡ length graph.now.nodes }
    requires output { IsOutput graph.now.nodes output.now }
    ensures { IfOk result (λ slots. LowersOutput graph.now list.old list.new output.now slots) }
{
    // Laws: zeroed rows are the same rows, and what is opened of them; an opening has one order, which keeps bags; values
    // have the shapes of a well-formed list's layout, and a list's contract says that it is one.
    rows_of_zeroed();
    rows_of_ordered();
    opened_of_bags();
    bags_are_equivalence();
    reveals_have_one_order::<ClearTask>();
    values_have_shapes::<ClearTask>();
    let _ = list.steps();
    let number = output.node as usize;
    let nodes = graph.nodes();
    let table = joined(alloc, list, &parts[number], &nodes[number])?;
    let _ = list.steps();
    let zeroed = zeroed_table(list, &table)?;
    let _ = list.steps();
    let first = open_to(alloc, list, &zeroed, output.recipients, 1)?;
    let _ = list.steps();
    let second = open_to(alloc, list, &zeroed, output.recipients, 2)?;
    let _ = list.steps();
    let third = open_to(alloc, list, &zeroed, output.recipients, 3)?;
    let _ = list.steps();
    Ok(Three {
        first,
        second,
        third,
    })
}
