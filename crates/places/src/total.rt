//! The AND words of all nodes and outputs.
#![tactic(auto)]

ghost use Rattle.std.specs.Prelude.{◌≡◌, ◌<◌, ◌≤◌, ◌^◌, length, sum, sum_by, IfOk};
ghost use Rattle.std.specs.List.{All};
ghost use Rattle.rewrites.specs.Rewritten.{rewritten_of};
ghost use Rattle.places.specs.Cost.{AreSmall, HaveFewRows};
ghost use Rattle.places.specs.Places.{nodes_words, output_words};

use crate::cost::{node_words, rows_at, width_at};
use crate::opened::{opened, opened_words};
use crate::placing::node_place;
use query_graph::{Graph, Output, nodes_are_written};
use rewrites::{Rewritten, nodes_have_parts};
use std::alloc::{AllocError, Global};
use trust_sets::Trust;

// The AND words of each node.
pub(crate) fn words_of(
    alloc: Global,
    graph: &Graph,
    trust: &Trust,
    rewritten: &Rewritten,
) -> Result<Vec<u128>, AllocError>
    requires made { rewritten.now ≡ rewritten_of graph.now }
    requires small { AreSmall graph.now.nodes }
    requires few { HaveFewRows rewritten.now.parts }
    ensures words { IfOk result (λ words. words.items ≡ nodes_words graph.now trust.now.known rewritten.now) }
    ensures few { IfOk result (λ words. All (λ word. word ≤ 2 ^ 120) words.items) }
    ensures count { IfOk result (λ words. length words.items ≤ 63) }
{
    nodes_are_written();
    nodes_have_parts();
    let mut words = Vec::new(alloc);
    for (number, node) in graph.nodes().iter().enumerate() {
        let at = number as u32;
        let place = node_place(trust, rewritten, at, &node.shape);
        words.push(node_words(graph.nodes(), rewritten, at, node, place))?;
    }
    Ok(words)
}

// Their sum.
pub(crate) fn sum_of(words: &[u128]) -> u128
    requires few { All (λ word. word ≤ 2 ^ 120) words.now }
    requires count { length words.now ≤ 63 }
    ensures sum { result ≡ sum words.now }
    ensures few { result ≤ 2 ^ 126 }
{
    let mut total = 0;
    for word in words {
        total += *word;
    }
    total
}

// The words that an output opens.
pub(crate) fn output_words(graph: &Graph, rewritten: &Rewritten, output: &Output) -> u128
    requires made { rewritten.now ≡ rewritten_of graph.now }
    requires small { AreSmall graph.now.nodes }
    requires node { output.now.node < length graph.now.nodes }
    ensures words { result ≡ output_words graph.now rewritten.now output.now }
    ensures few { result ≤ 2 ^ 21 }
{
    nodes_have_parts();
    let nodes = graph.nodes();
    let node = opened(graph, rewritten, output.node);
    let words = rows_at(nodes, node) * width_at(nodes, node);
    opened_words(rewritten.parts(node).as_slice(), words)
}

// The words that all outputs open.
pub(crate) fn outputs_words(graph: &Graph, rewritten: &Rewritten) -> u128
    requires made { rewritten.now ≡ rewritten_of graph.now }
    requires small { AreSmall graph.now.nodes }
    ensures words { result ≡ sum_by (output_words graph.now rewritten.now) graph.now.outputs }
    ensures few { result ≤ 2 ^ 85 }
{
    let mut total = 0;
    for output in graph.outputs() {
        total += output_words(graph, rewritten, output);
    }
    total
}

// The same words as numbers of 64 bits, where their sum is within the most.
pub(crate) fn small_words(alloc: Global, words: &[u128]) -> Result<Vec<u64>, AllocError>
    requires { sum words.now ≤ 8388608 }
    ensures { IfOk result (λ small. small.items ≡ words.now) }
{
    let mut small = Vec::new(alloc);
    for word in words {
        small.push(*word as u64)?;
    }
    Ok(small)
}
