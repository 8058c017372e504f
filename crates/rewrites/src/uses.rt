//! How often a node is used, and by whom.
#![tactic(auto)]

ghost use Rattle.std.specs.Prelude.{◌≡◌, ◌==◌, ◌&&◌, ◌++◌, map, length, IfOk};
ghost use Rattle.std.specs.List.{flat_map};
ghost use Rattle.query_graph.specs.declared.node.Node as declared_node;
ghost use Rattle.query_graph.specs.Observers.{sources_of};
ghost use Rattle.rewrites.specs.Up.{is_answer, is_first_source, is_under_up, used_nodes, uses};

use crate::nodes::sources;
use query_graph::{Graph, Node, Operator};
use std::alloc::{AllocError, Global};

// The sources of all these nodes.
fn used_by_nodes(alloc: Global, nodes: &[Node]) -> Result<Vec<u32>, AllocError>
    ensures { IfOk result (λ used. used.items ≡ flat_map (λ (n : declared_node.Node). sources_of n.shape) nodes.now) }
{
    let mut used = Vec::new(alloc);
    for node in nodes {
        let more = sources(alloc, &node.shape)?;
        used.extend_from_slice(&more)?;
    }
    Ok(used)
}

// The nodes that are used, each as often as it is.
pub(crate) fn used_nodes(alloc: Global, graph: &Graph) -> Result<Vec<u32>, AllocError>
    ensures { IfOk result (λ used. used.items ≡ used_nodes graph.now) }
{
    let mut used = used_by_nodes(alloc, graph.nodes())?;
    for output in graph.outputs() {
        used.push(output.node)?;
    }
    Ok(used)
}

// Whether a node is used exactly once.
pub(crate) fn is_used_once(used: &[u32], number: u32) -> bool
    ensures { result ≡ (uses used.now number == 1) }
{
    let count = used.iter().filter(|other| **other == number).count();
    count == 1
}

// Whether an output names this node.
pub(crate) fn is_answer(graph: &Graph, number: u32) -> bool
    ensures { result ≡ is_answer graph.now number }
{
    graph.outputs().iter().any(|output| output.node == number)
}

fn is_first_source(number: u32, shape: &Operator) -> bool
    ensures { result ≡ is_first_source number shape.now }
{
    match shape.source(0) {
        Some(source) => source == number,
        None => false,
    }
}

fn is_up_over(up: bool, number: u32, shape: &Operator) -> bool
    ensures { result ≡ (up && is_first_source number shape.now) }
{
    let first = is_first_source(number, shape);
    up && first
}

// Whether one of these nodes that is up has this one as its source.
pub(crate) fn is_under_up(number: u32, nodes: &[Node], up: &[bool]) -> bool
    requires { length up.now ≡ length nodes.now }
    ensures { result ≡ is_under_up number nodes.now up.now }
{
    for (place, node) in nodes.iter().enumerate() {
        if is_up_over(up[place], number, &node.shape) {
            return true;
        }
    }
    false
}
