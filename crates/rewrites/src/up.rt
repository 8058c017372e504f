//! Which selects are up.
#![tactic(auto)]

ghost use Rattle.std.specs.Prelude.{◌≡◌, length, IfOk};
ghost use Rattle.query_graph.specs.NodeSizes.{width_at};
ghost use Rattle.rewrites.specs.Parts.{is_joint, parts_at};
ghost use Rattle.std.specs.List.{list_any};
ghost use Rattle.rewrites.specs.Up as spec;

use crate::columns::copies_columns;
use crate::part::{Part, some_is_joint};
use crate::uses::{is_answer, is_under_up, is_used_once, used_nodes};
use listed::Listed;
use query_graph::{Graph, Node, Operator, Select};
use std::alloc::{AllocError, Global};

// How many columns a node has.
fn width_at(nodes: &[Node], number: u32) -> usize
    ensures { result ≡ width_at nodes.now number }
{
    match nodes.get(number as usize) {
        Some(node) => node.columns.len(),
        None => 0,
    }
}

// Whether a part of a node is joint.
fn is_joint_at(parts: &[Listed<Part>], number: u32) -> bool
    ensures { result ≡ list_any (λ part. is_joint part) (parts_at parts.now number) }
{
    match parts.get(number as usize) {
        Some(found) => some_is_joint(found.as_slice()),
        None => false,
    }
}

// Whether a select has no party written, a joint part under it, and copies each column of its source.
fn can_go_up(nodes: &[Node], parts: &[Listed<Part>], select: &Select) -> bool
    ensures { result ≡ spec.can_go_up nodes.now parts.now select.now }
{
    let joint = is_joint_at(parts, select.source);
    let copies = copies_columns(select.items.as_slice(), width_at(nodes, select.source));
    select.clear_at.is_none() && (joint && copies)
}

// Whether a node is used once, by an output or by one of these later nodes that is up.
fn is_shown_once(graph: &Graph, used: &[u32], number: u32, later: &[Node], behind: &[bool]) -> bool
    requires used { used.now ≡ spec.used_nodes graph.now }
    requires behind { length behind.now ≡ length later.now }
    ensures { result ≡ spec.is_shown_once graph.now number later.now behind.now }
{
    let once = is_used_once(used, number);
    let answer = is_answer(graph, number);
    let under = is_under_up(number, later, behind);
    once && (answer || under)
}

// Whether a node, before these later ones of which these are up, is up.
fn is_up_before(
    graph: &Graph,
    parts: &[Listed<Part>],
    used: &[u32],
    number: u32,
    shape: &Operator,
    later: &[Node],
    behind: &[bool],
) -> bool
    requires used { used.now ≡ spec.used_nodes graph.now }
    requires behind { length behind.now ≡ length later.now }
    ensures { result ≡ spec.is_up_before graph.now parts.now number shape.now later.now behind.now }
{
    match shape {
        Operator::Select(select) => {
            let can = can_go_up(graph.nodes(), parts, select);
            let shown = is_shown_once(graph, used, number, later, behind);
            can && shown
        }
        Operator::Relation(_)
        | Operator::Filter(_)
        | Operator::Concat(_)
        | Operator::Join(_)
        | Operator::Group(_)
        | Operator::Distinct(_) => false,
    }
}

// So many nodes, none of which is up.
fn none_up(alloc: Global, count: usize) -> Result<Vec<bool>, AllocError>
    ensures { IfOk result (λ up. length up.items ≡ count) }
{
    let mut up = Vec::new(alloc);
    for _number in 0..count {
        up.push(false)?;
    }
    Ok(up)
}

// Which nodes are up: from the last one back, since a select is up by the node that uses it.
pub(crate) fn up_nodes(
    alloc: Global,
    graph: &Graph,
    parts: &[Listed<Part>],
) -> Result<Vec<bool>, AllocError>
    ensures { IfOk result (λ up. up.items ≡ spec.up_nodes graph.now parts.now) }
{
    let used = used_nodes(alloc, graph)?;
    let nodes = graph.nodes().as_slice();
    let mut up = none_up(alloc, nodes.len())?;
    let mut number = nodes.len();
    while number > 0 {
        let (_, later) = nodes.split_at(number);
        let (_, behind) = up.as_slice().split_at(number);
        number -= 1;
        let shape = &nodes[number].shape;
        let is = is_up_before(graph, parts, &used, number as u32, shape, later, behind);
        up[number] = is;
    }
    Ok(up)
}
