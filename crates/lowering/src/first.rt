//! Where each party's relations lie in its first slots.

ghost use Rattle.std.specs.Prelude.{◌≡◌, ◌<◌, ◌≤◌, ◌^◌, [], ◌++◌, IfOk, IfSome, IsTrue, OnOk, length};
ghost use Rattle.step_lists.specs.Layout.{party_of};
ghost use Rattle.step_lists.specs.Rules.{is_party};
ghost use Rattle.lowering.specs.FirstSlots.{first_lengths, first_slot, lengths_of_relations, owner_of, relation_lengths};

use clear_tasks::ClearTask;
use query_graph::{Node, Operator};
use std::alloc::{AllocError, Global};
use step_lists::StepList;

/// The party whose file a relation is, 0 for any other node.
pub(crate) fn owner_of(shape: &Operator) -> u8
    ensures { result ≡ owner_of shape.now }
{
    match shape {
        Operator::Relation(relation) => relation.owner,
        _ => 0,
    }
}

// The lengths of a party's first slots: for each of its relations a slot for each column, and one of valid words.
fn lengths_of(alloc: Global, nodes: &[Node], party: u8) -> Result<Vec<u32>, AllocError>
    requires { IsTrue (is_party party) }
    ensures lengths { IfOk result (λ lengths. lengths.items ≡ lengths_of_relations (party_of party) nodes.now) }
    ensures few { IfOk result (λ lengths. length lengths.items < 2 ^ 32) }
{
    let mut lengths = Vec::new(alloc);
    for node in nodes {
        if node.shape.is_relation() && owner_of(&node.shape) == party {
            add_lengths(&mut lengths, node)?;
        }
    }
    if lengths.len() > u32::MAX as usize {
        return Err(AllocError);
    }
    Ok(lengths)
}

// Adds a relation's lengths: a slot for each column, and one of valid words.
fn add_lengths(lengths: &mut Vec<u32>, node: &Node) -> Result<(), AllocError>
    ensures { OnOk result (lengths.new.items ≡ lengths.old.items ++ relation_lengths node.now) }
{
    for _ in 0..node.columns.len() {
        lengths.push(node.rows)?;
    }
    lengths.push(node.rows)?;
    Ok(())
}

/// The list without a step.
pub(crate) fn first_list(alloc: Global, nodes: &[Node]) -> Result<StepList<ClearTask>, AllocError>
    ensures { IfOk result (λ list. list ≡ record { first = first_lengths nodes.now; steps = [] }) }
{
    let first = lengths_of(alloc, nodes, 1)?;
    let second = lengths_of(alloc, nodes, 2)?;
    let third = lengths_of(alloc, nodes, 3)?;
    Ok(StepList::new(alloc, first, second, third))
}

/// The first slot of the relation with this number, at its owner.
pub(crate) fn first_slot(nodes: &[Node], number: usize, party: u8) -> Option<u32>
    requires party { IsTrue (is_party party) }
    requires within { number ≤ length nodes.now }
    ensures { IfSome result (λ slot. slot ≡ first_slot nodes.now number (party_of party)) }
{
    let mut slot = 0u32;
    for node in &nodes[..number] {
        if node.shape.is_relation() && owner_of(&node.shape) == party {
            slot = slot
                .checked_add(u32::try_from(node.columns.len()).ok()?)?
                .checked_add(1)?;
        }
    }
    Some(slot)
}
