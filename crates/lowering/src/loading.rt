//! The first slots of a world.

ghost use Rattle.std.specs.Prelude.{◌≡◌, ◌++◌, IfOk, IsTrue, OnOk, length};
ghost use Rattle.plain_meaning.specs.Fits.{IsWorldOf, relations};
ghost use Rattle.plain_meaning.specs.Plain.{rows_of_tables};
ghost use Rattle.step_lists.specs.Layout.{party_of};
ghost use Rattle.step_lists.specs.Possible.{SlotsFit};
ghost use Rattle.step_lists.specs.Rules.{is_party};
ghost use Rattle.step_lists.specs.Shapes.{word_lists};
ghost use Rattle.lowering.specs.FirstSlots.{first_slots, if_owned, relation_slots, slots_of_relations};

use crate::first::owner_of;
use crate::plan::Plan;
use padded::pad_rows;
use plain_meaning::World;
use query_graph::Node;
use std::alloc::{AllocError, Global};
use step_lists::Slots;
use tables::Table;

/// The first slots of a world of the plan's graph: each party's relations in the order of the text, each as a slot a
/// column, with zeros up to the declared rows, and then one of valid words.
pub fn load(alloc: Global, plan: &Plan, world: &World) -> Result<Slots, AllocError>
    requires { IsWorldOf plan.now.graph.nodes (rows_of_tables world.now) }
    ensures slots { IfOk result (λ slots. slots ≡ first_slots plan.now.graph.nodes (rows_of_tables world.now)) }
    ensures fits { IfOk result (λ slots. SlotsFit plan.now.list.first slots) }
{
    // Law: padded rows are so many columns of so many words.
    padded::laws::padded_fits();
    // Its contract says that the list's first slots are those of the relations.
    let _ = plan.list();
    let nodes = plan.graph().nodes();
    let first = party_slots(alloc, nodes, world, 1)?;
    let second = party_slots(alloc, nodes, world, 2)?;
    let third = party_slots(alloc, nodes, world, 3)?;
    Ok(Slots::new(first, second, third))
}

// The first slots of a party.
fn party_slots(
    alloc: Global,
    nodes: &[Node],
    world: &World,
    party: u8,
) -> Result<Vec<Vec<u64>>, AllocError>
    requires party { IsTrue (is_party party) }
    requires count { length (relations nodes.now) ≡ length world.now }
    ensures { IfOk result (λ slots. word_lists slots ≡ slots_of_relations (party_of party) (relations nodes.now) (rows_of_tables world.now)) }
{
    let mut slots = Vec::new(alloc);
    let mut relation = 0;
    for node in nodes {
        if node.shape.is_relation() {
            add_owned(alloc, &mut slots, party, node, world.table(relation))?;
            relation += 1;
        }
    }
    Ok(slots)
}

// Adds the slots of a relation, where it is this party's.
fn add_owned(
    alloc: Global,
    slots: &mut Vec<Vec<u64>>,
    party: u8,
    node: &Node,
    table: &Table,
) -> Result<(), AllocError>
    requires { IsTrue (is_party party) }
    ensures { OnOk result (word_lists slots.new ≡ word_lists slots.old ++ if_owned (party_of party) node.now (relation_slots node.now table.now.rows)) }
{
    if owner_of(&node.shape) == party {
        add_relation(alloc, slots, node, table)?;
    }
    Ok(())
}

// Adds the slots of a relation.
fn add_relation(
    alloc: Global,
    slots: &mut Vec<Vec<u64>>,
    node: &Node,
    table: &Table,
) -> Result<(), AllocError>
    ensures { OnOk result (word_lists slots.new ≡ word_lists slots.old ++ relation_slots node.now table.now.rows) }
{
    let rows = table.lent_rows(alloc)?;
    let padded = pad_rows(alloc, &rows, node.columns.len(), node.rows as usize)?;
    for words in padded {
        slots.push(words)?;
    }
    Ok(())
}
