//! A text's graph and its trust, or the first rule that fails.

ghost use Rattle.lowering.specs.Accepted.{AcceptsGraph, AcceptsQuery, AcceptsText};

use crate::fault::{CompileFault, Refusal};
use query_graph::{Graph, GraphFault, build};
use query_text::{Query, ReadFault, read_query};
use std::alloc::Global;
use trust_sets::{Trust, check_trust, derive_trust};

/// A graph that passes, and who may know what of it.
#[derive(Debug, Drop)]
pub(crate) struct Accepted {
    pub graph: Graph,
    pub trust: Trust,
}

/// The graph of a text and its trust, where no rule fails.
pub(crate) fn accept(alloc: Global, text: &[u8]) -> Result<Accepted, CompileFault>
    ensures { AcceptsText text.now result }
{
    match read_query(alloc, text) {
        Ok(query) => accept_query(alloc, &query),
        Err(ReadFault::Memory) => Err(CompileFault::Memory),
        Err(fault) => Err(CompileFault::Refused(Refusal::Text(fault))),
    }
}

// The same of a query's statements.
fn accept_query(alloc: Global, query: &Query) -> Result<Accepted, CompileFault>
    ensures { AcceptsQuery query.now result }
{
    match build(alloc, query) {
        Ok(graph) => accept_graph(alloc, graph),
        Err(GraphFault::Memory) => Err(CompileFault::Memory),
        Err(fault) => Err(CompileFault::Refused(Refusal::Graph(fault))),
    }
}

// The same of a graph.
fn accept_graph(alloc: Global, graph: Graph) -> Result<Accepted, CompileFault>
    ensures { AcceptsGraph graph result }
{
    let trust = derive_trust(alloc, &graph)?;
    match check_trust(&graph, &trust) {
        Ok(()) => Ok(Accepted { graph, trust }),
        Err(fault) => Err(CompileFault::Refused(Refusal::Trust(fault))),
    }
}
