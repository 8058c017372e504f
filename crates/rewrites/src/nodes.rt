//! The parts of each node.
#![tactic(auto)]

ghost use Rattle.std.specs.Prelude.{◌≡◌, [], ◌∷◌, ◌++◌, IfOk, OnOk};
ghost use Rattle.query_graph.specs.Observers.{sources_of};
ghost use Rattle.rewrites.specs.Parts.{clear_place, node_parts, node_place, operator_place, parts_at, parts_of, placed, source_parts};

use crate::part::{Part, PartPlace, clear_party, only_place, whole_place};
use listed::Listed;
use query_graph::{Node, Operator};
use std::alloc::{AllocError, Global};

// The numbers of an operator's sources.
pub(crate) fn sources(alloc: Global, shape: &Operator) -> Result<Vec<u32>, AllocError>
    ensures { IfOk result (λ sources. sources.items ≡ sources_of shape.now) }
{
    let mut sources = Vec::new(alloc);
    for index in 0..shape.source_count() {
        if let Some(source) = shape.source(index) {
            sources.push(source)?;
        }
    }
    Ok(sources)
}

// Adds these parts.
fn add_all(parts: &mut Listed<Part>, more: &[Part]) -> Result<(), AllocError>
    ensures { OnOk result (parts.new ≡ parts.old ++ more.now) }
{
    for part in more {
        parts.push(*part)?;
    }
    Ok(())
}

// Adds the parts of an earlier node.
fn add_parts(
    earlier: &[Listed<Part>],
    node: u32,
    parts: &mut Listed<Part>,
) -> Result<(), AllocError>
    ensures { OnOk result (parts.new ≡ parts.old ++ parts_at earlier.now node) }
{
    match earlier.get(node as usize) {
        Some(more) => add_all(parts, more.as_slice()),
        None => Ok(()),
    }
}

// The parts of all sources, one source after the other.
fn source_parts(
    alloc: Global,
    shape: &Operator,
    earlier: &[Listed<Part>],
) -> Result<Listed<Part>, AllocError>
    ensures { IfOk result (λ parts. parts ≡ source_parts shape.now earlier.now) }
{
    let mut parts = Listed::new(alloc);
    let sources = sources(alloc, shape)?;
    for source in &sources {
        add_parts(earlier, *source, &mut parts)?;
    }
    Ok(parts)
}

fn clear_place(party: Option<u8>) -> Option<PartPlace>
    ensures { result ≡ clear_place party }
{
    match party {
        Some(party) => Some(PartPlace::Clear(party)),
        None => None,
    }
}

// The place of an operator's one part, or none where it has those of its sources.
fn operator_place(shape: &Operator, parts: &[Part]) -> Option<PartPlace>
    ensures { result ≡ operator_place shape.now parts.now }
{
    match shape {
        Operator::Relation(relation) => Some(PartPlace::Clear(relation.owner)),
        Operator::Filter(_) | Operator::Select(_) => only_place(parts),
        Operator::Concat(_) => clear_place(clear_party(parts)),
        Operator::Join(_) | Operator::Group(_) | Operator::Distinct(_) => Some(whole_place(parts)),
    }
}

fn node_place(shape: &Operator, parts: &[Part]) -> Option<PartPlace>
    ensures { result ≡ node_place shape.now parts.now }
{
    match shape.clear_at() {
        Some(party) => Some(PartPlace::Clear(party)),
        None => operator_place(shape, parts),
    }
}

// One part at this place with so many rows, or these parts.
fn placed(
    alloc: Global,
    rows: u32,
    place: Option<PartPlace>,
    parts: Listed<Part>,
) -> Result<Listed<Part>, AllocError>
    ensures { IfOk result (λ made. made ≡ placed rows place parts) }
{
    match place {
        None => Ok(parts),
        Some(place) => {
            let mut one = Listed::new(alloc);
            one.push(Part { place, rows })?;
            Ok(one)
        }
    }
}

// The parts of the node that follows these.
fn node_parts(
    alloc: Global,
    node: &Node,
    earlier: &[Listed<Part>],
) -> Result<Listed<Part>, AllocError>
    ensures { IfOk result (λ made. made ≡ node_parts node.now earlier.now) }
{
    let parts = source_parts(alloc, &node.shape, earlier)?;
    let place = node_place(&node.shape, parts.as_slice());
    placed(alloc, node.rows, place, parts)
}

// The parts of each node in order.
pub(crate) fn parts_of(alloc: Global, nodes: &[Node]) -> Result<Vec<Listed<Part>>, AllocError>
    ensures { IfOk result (λ parts. parts.items ≡ parts_of nodes.now) }
{
    let mut parts = Vec::new(alloc);
    for node in nodes {
        let made = node_parts(alloc, node, &parts)?;
        parts.push(made)?;
    }
    Ok(parts)
}
