//! From a query's bytes to its graph, or to the line of its refusal.

ghost use Rattle.std.specs.Prelude.{◌≡◌, IfOk, option_map};
ghost use Rattle.conclave_top.specs.Compile.{Compiles, CompilesGraph, CompilesQuery, HasGraph, graph_refusal, graphs};
ghost use Rattle.conclave_top.specs.End.{Reads};
ghost use Rattle.conclave_top.specs.Job.{refusal};
ghost use Rattle.conclave_top.specs.Outside.{folder_at};

use crate::end::{Cause, End, Stop};
use lowering::lines::{graph_refused, text_refused, trust_refused};
use outside::{Folder, FolderFault};
use query_graph::{Graph, GraphFault, build};
use query_text::{Query, ReadFault, read_query};
use std::alloc::{AllocError, Global};
use trust_sets::{check_trust, derive_trust};

/// The graph of the query in a file, or how the command ends without one.
pub(crate) fn compile_file<F: Folder>(
    alloc: Global,
    query: &str,
    files: &mut F,
) -> Result<Graph, End>
    ensures { Reads (refusal (F.files files.old) query.now graphs) (HasGraph (F.files files.old) query.now)
        (folder_at F.Folder files.old) (folder_at F.Folder files.new) result }
{
    let text = match files.read(query) {
        Ok(text) => text,
        Err(FolderFault::Failed) => return Err(End::Outside),
        Err(FolderFault::Memory) => return Err(End::Memory),
    };
    match compile(alloc, &text) {
        Ok(graph) => Ok(graph),
        Err(stop) => Err(stop.end(Cause::Refused)),
    }
}

/// The graph of a text, or the line of its refusal.
fn compile(alloc: Global, text: &[u8]) -> Result<Graph, Stop>
    ensures compiles { Compiles text.now result }
{
    match read_query(alloc, text) {
        Ok(query) => graph_of(alloc, &query),
        Err(ReadFault::Text { line, column }) => {
            Err(Stop::Line(text_refused(alloc, line, column)?))
        }
        Err(ReadFault::Memory) => Err(Stop::Memory),
    }
}

/// The graph of a query's statements, or the line of their refusal.
fn graph_of(alloc: Global, query: &Query) -> Result<Graph, Stop>
    ensures compiles { CompilesQuery query.now result }
{
    match build(alloc, query) {
        Ok(graph) => checked(alloc, graph),
        Err(GraphFault::Memory) => Err(Stop::Memory),
        Err(fault) => Err(Stop::Line(graph_refused(alloc, &fault)?)),
    }
}

/// The graph again, or the line of its refusal.
fn checked(alloc: Global, graph: Graph) -> Result<Graph, Stop>
    ensures { CompilesGraph graph result }
{
    match graph_refusal(alloc, &graph)? {
        Some(line) => Err(Stop::Line(line)),
        None => Ok(graph),
    }
}

/// The line of a graph's refusal by trust or release.
fn graph_refusal(alloc: Global, graph: &Graph) -> Result<Option<Vec<u8>>, AllocError>
    ensures { IfOk result (λ line. option_map (λ l. l.items) line ≡ graph_refusal graph.now) }
{
    let trust = derive_trust(alloc, graph)?;
    match check_trust(graph, &trust) {
        Ok(()) => Ok(None),
        Err(fault) => {
            let line = trust_refused(alloc, graph.nodes(), &fault)?;
            Ok(Some(line))
        }
    }
}
