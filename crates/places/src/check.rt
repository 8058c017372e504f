//! The places of a graph's nodes, or the first bound that no party counts.
#![tactic(auto)]

ghost use Rattle.std.specs.Prelude.{◌≡◌, length, None, IfErr, IfOk};
ghost use Rattle.rewrites.specs.Rewritten.{rewritten_of};
ghost use Rattle.places.specs.Bounds.{first_uncounted, flags_from, places_from};
ghost use Rattle.places.specs.Places.{Faults, Gives, checked};

use crate::bounds::{is_counted, source_of};
use crate::flags::add_flags;
use crate::place::{Place, PlaceFault};
use crate::places::Places;
use crate::placing::node_place;
use crate::total::{outputs_words, small_words, sum_of, words_of};
use query_graph::{Flag, Graph, nodes_are_written};
use rewrites::{Rewritten, nodes_have_parts, parts_add_up};
use std::alloc::{AllocError, Global};
use trust_sets::Trust;

// The place of each node, or the first bound that no party counts.
fn place_nodes(
    alloc: Global,
    graph: &Graph,
    trust: &Trust,
    rewritten: &Rewritten,
) -> Result<Vec<Place>, PlaceFault>
    requires parts { length rewritten.now.parts ≡ length graph.now.nodes }
    requires up { length rewritten.now.up ≡ length graph.now.nodes }
    ensures places { IfOk result (λ places. places.items ≡ places_from trust.now.known rewritten.now 0 graph.now.nodes) }
    ensures counted { IfOk result (λ places. first_uncounted trust.now.known rewritten.now 0 graph.now.nodes ≡ None) }
    ensures fault { IfErr result (λ fault. Faults fault (first_uncounted trust.now.known rewritten.now 0 graph.now.nodes)) }
{
    nodes_are_written();
    let mut places = Vec::new(alloc);
    for (number, node) in graph.nodes().iter().enumerate() {
        let place = node_place(trust, rewritten, number as u32, &node.shape);
        let source = rewritten.parts(source_of(&node.shape));
        if !is_counted(&node.shape, place, source.as_slice()) {
            return Err(PlaceFault::AtMost {
                line: node.line,
                node: number as u32,
            });
        }
        places.push(place)?;
    }
    Ok(places)
}

// The flags of all bounds.
fn flags_of(
    alloc: Global,
    graph: &Graph,
    trust: &Trust,
    rewritten: &Rewritten,
) -> Result<Vec<Flag>, AllocError>
    requires parts { length rewritten.now.parts ≡ length graph.now.nodes }
    requires up { length rewritten.now.up ≡ length graph.now.nodes }
    ensures { IfOk result (λ flags. flags.items ≡ flags_from trust.now.known rewritten.now 0 graph.now.nodes) }
{
    nodes_are_written();
    let mut flags = Vec::new(alloc);
    for (number, node) in graph.nodes().iter().enumerate() {
        let at = number as u32;
        let place = node_place(trust, rewritten, at, &node.shape);
        let source = rewritten.parts(source_of(&node.shape));
        add_flags(&mut flags, at, &node.shape, place, source.as_slice())?;
    }
    Ok(flags)
}

#[tactic(auto, using(crate::proofs::AcceptedPlaces::places_count, crate::proofs::AcceptedPlaces::words_count))]
/// Where each node is worked and at what price, or the first node with a bound that no party counts, or else the sum of
/// the AND words, where it is above 8,388,608.
pub fn check_places(
    alloc: Global,
    graph: &Graph,
    trust: &Trust,
    rewritten: &Rewritten,
) -> Result<Places, PlaceFault>
    requires { rewritten.now ≡ rewritten_of graph.now }
    ensures exactly { Gives result (checked graph.now trust.now.known rewritten.now) }
    ensures places { IfOk result (λ places. length places.places ≡ length graph.now.nodes) }
    ensures words { IfOk result (λ places. length places.words ≡ length graph.now.nodes) }
{
    nodes_have_parts();
    parts_add_up();
    let _nodes = graph.nodes();
    let places = place_nodes(alloc, graph, trust, rewritten)?;
    let words = words_of(alloc, graph, trust, rewritten)?;
    let total = sum_of(&words) + outputs_words(graph, rewritten);
    if total > 8_388_608 {
        return Err(PlaceFault::Cost { words: total });
    }
    let small = small_words(alloc, &words)?;
    let flags = flags_of(alloc, graph, trust, rewritten)?;
    Ok(Places::new(places, small, total as u64, flags))
}
