//! The command `plan`: the query's graph, and the text that says who may know what of it.

ghost use Rattle.conclave_top.specs.Command.{plan};
ghost use Rattle.conclave_top.specs.End.{Ended};
ghost use Rattle.conclave_top.specs.Jobs.{CommandEnded};
ghost use Rattle.conclave_top.specs.Outside.{ports_at};
ghost use Rattle.conclave_top.specs.PlanText.{plan_job};

use crate::compile::compile_file;
use crate::deliver::deliver;
use crate::end::End;
use crate::plan_text::plan_text;
use outside::{Folder, Sink};
use query_graph::Graph;
use std::alloc::Global;

/// The command `plan`: reads the query, and writes who may know what of its nodes and who gets its outputs.
pub(crate) fn plan<F: Folder, O: Sink>(
    alloc: Global,
    query: &str,
    files: &mut F,
    out: &mut O,
) -> End
    ensures { CommandEnded (plan query.now)
        (ports_at F.Folder O.Sink files.old out.old) (ports_at F.Folder O.Sink files.new out.new) result }
{
    match compile_file(alloc, query, files) {
        Ok(graph) => over_graph(alloc, &graph, files, out),
        Err(end) => end,
    }
}

/// The same over a graph.
fn over_graph<F: Folder, O: Sink>(alloc: Global, graph: &Graph, files: &mut F, out: &mut O) -> End
    ensures { Ended (plan_job graph.now)
        (ports_at F.Folder O.Sink files.old out.old) (ports_at F.Folder O.Sink files.new out.new) result }
{
    let Ok(text) = plan_text(alloc, graph) else {
        return End::Memory;
    };
    deliver(&[], &text, files, out)
}
