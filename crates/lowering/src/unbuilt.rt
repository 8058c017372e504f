//! What isn't carried out yet.

ghost use Rattle.std.specs.Prelude.{◌≡◌};
ghost use Rattle.lowering.specs.Unbuilt.{first_written, is_written, too_dear, unbuilt};

use crate::cost::shared_cost;
use query_graph::{Graph, Node, Operator};

/// The most AND words that a query may take.
pub(crate) const AND_LIMIT: u128 = 8_388_608;

/// The line of what isn't built: of the first node on which a bound or a party is written, or else 0 where all nodes and
/// outputs on shares take too many AND words.
pub(crate) fn unbuilt(graph: &Graph) -> Option<u32>
    ensures { result ≡ unbuilt graph.now }
{
    match first_written(graph.nodes()) {
        Some(line) => Some(line),
        None => too_dear(shared_cost(graph)),
    }
}

fn too_dear(cost: u128) -> Option<u32>
    ensures { result ≡ too_dear cost }
{
    if cost > AND_LIMIT { Some(0) } else { None }
}

// The line of the first node on which a bound or a party is written.
fn first_written(nodes: &[Node]) -> Option<u32>
    ensures { result ≡ first_written nodes.now }
{
    for node in nodes {
        if is_written(&node.shape) {
            return Some(node.line);
        }
    }
    None
}

// Whether a bound or a party is written on an operator.
fn is_written(shape: &Operator) -> bool
    ensures { result ≡ is_written shape.now }
{
    shape.at_most().is_some()
        || shape.parts_at_most().is_some()
        || shape.via().is_some()
        || shape.clear_at().is_some()
}
