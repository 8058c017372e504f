//! The line of a refusal.

ghost use Rattle.std.specs.Prelude.{◌≡◌, IfOk};
ghost use Rattle.query_graph.specs.Content.{Content};
ghost use Rattle.query_graph.specs.TextGraph.{HasGraph};
ghost use Rattle.lowering.specs.Lines.{trust_refused};
ghost use Rattle.lowering.specs.RefusalLines.{IsRefusalLine};
ghost use Rattle.lowering.specs.Refusals.{IsRefusal};

use crate::fault::Refusal;
use crate::lines::{graph_refused, text_refused, trust_refused};
use query_graph::{Graph, build, texts_have_graphs};
use query_text::{ReadFault, read_query};
use std::alloc::{AllocError, Global};
use trust_sets::TrustFault;

/// The line of a refusal of a text, with its line end: the rule, the place, and the names that the text has for it.
pub fn refusal_text(alloc: Global, refusal: &Refusal, text: &[u8]) -> Result<Vec<u8>, AllocError>
    requires { IsRefusal text.now refusal.now }
    ensures { IfOk result (λ line. IsRefusalLine text.now refusal.now line.items) }
{
    match refusal {
        Refusal::Text(ReadFault::Text { line, column }) => text_refused(alloc, *line, *column),
        Refusal::Text(ReadFault::Memory) => unreachable!(),
        Refusal::Graph(fault) => graph_refused(alloc, fault),
        Refusal::Trust(fault) => trust_line(alloc, fault, text),
    }
}

// The line of a text of which a statement asks for more than trust or release allows.
fn trust_line(alloc: Global, fault: &TrustFault, text: &[u8]) -> Result<Vec<u8>, AllocError>
    ensures { IfOk result (λ line. (graph : Content) → HasGraph text.now graph → line.items ≡ trust_refused graph.nodes fault.now) }
{
    // Law: a text has one graph.
    texts_have_graphs();
    let graph = graph_of(alloc, text)?;
    let line = trust_refused(alloc, graph.nodes(), fault)?;
    Ok(line)
}

// The graph of a text that has one.
fn graph_of(alloc: Global, text: &[u8]) -> Result<Graph, AllocError>
    ensures { IfOk result (λ graph. HasGraph text.now graph) }
{
    let Ok(query) = read_query(alloc, text) else {
        return Err(AllocError);
    };
    let Ok(graph) = build(alloc, &query) else {
        return Err(AllocError);
    };
    Ok(graph)
}
