//! From a query to its graph.
#![tactic(auto)]

ghost use Rattle.std.specs.Prelude.{All, IfErr, IfOk};
ghost use Rattle.query_text.specs.Grammar.{Fits};
ghost use Rattle.query_graph.specs.Build.{Gives, graph_of};
ghost use Rattle.query_graph.specs.Draft.{IsDraft};
ghost use Rattle.query_graph.specs.IsGraph.{IsGraph};
ghost use Rattle.query_graph.specs.Statements.{IsFaultOf, IsGraphOf};

use crate::draft::Draft;
use crate::fault::GraphFault;
use crate::graph::Graph;
use query_text::{Query, Statement};
use std::alloc::Global;

/// The graph of a query, or the first rule that one of its statements breaks: the first such statement, and
/// in it unknown names before taken ones, then kinds, shape and size. `NoOutput` comes after all of these,
/// and `Memory` says nothing of the query.
#[tactic(auto, using(crate::proofs::Made::told))]
pub fn build(alloc: Global, query: &Query) -> Result<Graph, GraphFault>
    ensures exact { Gives result (graph_of query.now) }
    ensures made { IfOk result (λ graph. IsGraphOf query.now graph) }
    ensures graph { IfOk result (λ graph. IsGraph graph) }
    ensures first { IfErr result (λ fault. IsFaultOf query.now fault) }
{
    let draft = draft_of(alloc, query.statements.as_slice())?;
    Ok(Graph::new(draft))
}

// The nodes and outputs of these statements, or the first rule that fails.
#[tactic(auto, using(crate::proofs::GraphSteps::statement_passes, crate::proofs::GraphSteps::statement_fails))]
fn draft_of(alloc: Global, statements: &[Statement]) -> Result<Draft, GraphFault>
    requires fit { All (λ s. Fits s.body) statements.now }
    ensures exact { Gives result (graph_of statements.now) }
    ensures draft { IfOk result (λ draft. IsDraft draft) }
{
    let mut draft = Draft::new(alloc);
    for statement in statements {
        draft.add(alloc, statement.line, &statement.body)?;
    }
    if draft.has_no_output() {
        return Err(GraphFault::NoOutput);
    }
    Ok(draft)
}
