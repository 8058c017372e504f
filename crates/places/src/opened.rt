//! What an output opens.
#![tactic(auto)]

ghost use Rattle.std.specs.Prelude.{◌≡◌, ◌<◌, ◌≤◌, ◌^◌, length};
ghost use Rattle.rewrites.specs.Opened.{number_at, opened_nodes};
ghost use Rattle.rewrites.specs.Parts.{only_place};
ghost use Rattle.rewrites.specs.Rewritten.{rewritten_of};
ghost use Rattle.places.specs.Places.{opened_words};

use crate::bounds::source_of;
use query_graph::Graph;
use rewrites::{Part, PartPlace, Rewritten, nodes_have_parts, opened_by_sources};

// The node that is opened for this one: itself, or the source below all selects that are up.
pub(crate) fn opened(graph: &Graph, rewritten: &Rewritten, node: u32) -> u32
    requires made { rewritten.now ≡ rewritten_of graph.now }
    requires node { node < length graph.now.nodes }
    ensures opened { result ≡ number_at (opened_nodes graph.now) node }
    ensures within { result < length graph.now.nodes }
{
    nodes_have_parts();
    opened_by_sources();
    let nodes = graph.nodes();
    let mut below = node;
    while rewritten.is_up(below) {
        below = source_of(&nodes[below as usize].shape);
    }
    below
}

// The words of an opening of these parts: none of one clear part, else all.
pub(crate) fn opened_words(parts: &[Part], words: u128) -> u128
    ensures words { result ≡ opened_words (only_place parts.now) words }
    ensures few { result ≤ words }
{
    match parts {
        [only] => match only.place {
            PartPlace::Clear(_) => 0,
            PartPlace::Joint => words,
        },
        _ => words,
    }
}
