//! The rewriting of a graph, from its nodes and outputs.
#![tactic(auto)]

ghost use Rattle.std.specs.Prelude.{◌≡◌, length, IfOk};
ghost use Rattle.rewrites.specs.Rewritten.{rewritten_of};

use crate::nodes::parts_of;
use crate::rewritten::Rewritten;
use crate::up::up_nodes;
use query_graph::Graph;
use std::alloc::{AllocError, Global};

/// The parts of each node, and which selects are up.
///
/// Filters and selects are pushed down to the parts of their source, a concat keeps its sources' parts in their order
/// unless all are clear at one party, and every other node has one part: clear at a party where all of its sources are
/// clear there, or where the text says so, else joint. A select is up that has no party written, has a joint part under
/// it, copies each column of its source, and is used once, by an output or by a select that is up.
#[tactic(auto, using(crate::proofs::NodesParts::parts_count, crate::proofs::NodesParts::ups_count))]
pub fn rewrite(alloc: Global, graph: &Graph) -> Result<Rewritten, AllocError>
    ensures rewritten { IfOk result (λ rewritten. rewritten ≡ rewritten_of graph.now) }
    ensures parts { IfOk result (λ rewritten. length rewritten.parts ≡ length graph.now.nodes) }
    ensures up { IfOk result (λ rewritten. length rewritten.up ≡ length graph.now.nodes) }
{
    let parts = parts_of(alloc, graph.nodes())?;
    let up = up_nodes(alloc, graph, &parts)?;
    Ok(Rewritten::new(parts, up))
}
