//! The command `plain`, stage by stage: the query's graph, the files of its relations, its answers.

ghost use Rattle.std.specs.Prelude.{◌≡◌, [], All, None, length, map};
ghost use Rattle.conclave_top.specs.Answers.{printed};
ghost use Rattle.conclave_top.specs.Bounds.{first_bound};
ghost use Rattle.conclave_top.specs.Command.{plain};
ghost use Rattle.conclave_top.specs.Due.{does};
ghost use Rattle.conclave_top.specs.End.{Ended};
ghost use Rattle.conclave_top.specs.Job.{only};
ghost use Rattle.conclave_top.specs.Jobs.{CommandEnded};
ghost use Rattle.conclave_top.specs.Outside.{ports_at};
ghost use Rattle.conclave_top.specs.Plain.{answer_job, answered, plain_job, tables_in};
ghost use Rattle.conclave_top.specs.Relations.{IsStored};
ghost use Rattle.plain_meaning.specs.Fits.{AreFiles, relations};

use crate::answers::answers;
use crate::bounds::{first_bound, unbuilt};
use crate::compile::compile_file;
use crate::deliver::deliver;
use crate::end::{Cause, End};
use crate::relations::{read_relations, relations_of, tables_of};
use outside::{Folder, Sink};
use query_graph::{Graph, Node};
use std::alloc::Global;
use tables::{Table, read_tables_fit};

/// The command `plain`: reads the query and then the files of its relations, and writes its answers.
pub(crate) fn plain<F: Folder, O: Sink>(
    alloc: Global,
    query: &str,
    files: &mut F,
    out: &mut O,
) -> End
    ensures { CommandEnded (plain query.now)
        (ports_at F.Folder O.Sink files.old out.old) (ports_at F.Folder O.Sink files.new out.new) result }
{
    match compile_file(alloc, query, files) {
        Ok(graph) => over_graph(alloc, &graph, files, out),
        Err(end) => end,
    }
}

/// The same over a graph.
fn over_graph<F: Folder, O: Sink>(alloc: Global, graph: &Graph, files: &mut F, out: &mut O) -> End
    ensures { Ended (plain_job (F.files files.old) graph.now)
        (ports_at F.Folder O.Sink files.old out.old) (ports_at F.Folder O.Sink files.new out.new) result }
{
    match first_bound(graph.nodes()) {
        Some(line) => unbuilt(alloc, line),
        None => over_relations(alloc, graph, files, out),
    }
}

/// The same over a graph without a bound.
fn over_relations<F: Folder, O: Sink>(
    alloc: Global,
    graph: &Graph,
    files: &mut F,
    out: &mut O,
) -> End
    requires unbounded { first_bound graph.now.nodes ≡ None }
    ensures { Ended (answer_job (F.files files.old) graph.now)
        (ports_at F.Folder O.Sink files.old out.old) (ports_at F.Folder O.Sink files.new out.new) result }
{
    let Ok(nodes) = relations_of(alloc, graph) else {
        return End::Memory;
    };
    match read_relations(alloc, "", &nodes, files) {
        Ok(bytes) => over_files(alloc, graph, &nodes, &bytes, files, out),
        Err(end) => end,
    }
}

/// The same behind the reads: over the bytes of its relations' files.
fn over_files<F: Folder, O: Sink>(
    alloc: Global,
    graph: &Graph,
    nodes: &[&Node],
    bytes: &[Vec<u8>],
    files: &mut F,
    out: &mut O,
) -> End
    requires unbounded { first_bound graph.now.nodes ≡ None }
    requires relations { map (λ node. node.now) nodes.now ≡ relations graph.now.nodes }
    requires stored { All (λ node. IsStored node.now) nodes.now }
    requires as_many { length bytes.now ≡ length nodes.now }
    ensures { Ended (only (answered [] graph.now (tables_in graph.now (map (λ b. b.items) bytes.now))))
        (ports_at F.Folder O.Sink files.old out.old) (ports_at F.Folder O.Sink files.new out.new) result }
{
    // What is read fits, so the tables make a world.
    read_tables_fit();
    match tables_of(alloc, "", nodes, bytes) {
        Ok(tables) => over_tables(alloc, graph, tables, files, out),
        Err(stop) => stop.end(Cause::Faulty),
    }
}

/// The same behind the files: over their tables.
fn over_tables<F: Folder, O: Sink>(
    alloc: Global,
    graph: &Graph,
    tables: Vec<Table>,
    files: &mut F,
    out: &mut O,
) -> End
    requires unbounded { first_bound graph.now.nodes ≡ None }
    requires files { AreFiles graph.now.nodes tables.items }
    ensures { Ended (only (does [] [] (printed graph.now tables.items)))
        (ports_at F.Folder O.Sink files.old out.old) (ports_at F.Folder O.Sink files.new out.new) result }
{
    let Ok(text) = answers(alloc, graph, tables) else {
        return End::Memory;
    };
    deliver(&[], &text, files, out)
}
