//! Segments, one behind the other: those of the nodes, and then those of the outputs.

ghost use Rattle.std.specs.Prelude.{◌≡◌, ◌<◌, [], false, true, IfOk, None, Some, length, slice_get};
ghost use Rattle.query_graph.specs.Observers.{is_relation};
ghost use Rattle.query_graph.specs.declared.node.Node.{Node};
ghost use Rattle.lowering.specs.FirstSlots.{first_lengths};
ghost use Rattle.lowering.specs.Lowered.{IsWhole, Lowered, LowersNode, StoresNodes};
ghost use Rattle.lowering.specs.Unbuilt.{first_written};

use crate::first::{first_list, first_slot, owner_of};
use crate::open::lower_output;
use crate::share::sources;
use crate::stored::Stored;
use crate::work::worked;
use bags::laws::bags_are_equivalence;
use clear_tasks::ClearTask;
use lanes::Three;
use padded::laws::{padded_fits, rows_of_padded};
use plain_meaning::laws::{nodes_are_operators, nodes_mean_operators};
use plain_operators::laws::operator_keeps_bags;
use query_graph::{Graph, nodes_are_written};
use shared_ops::laws::nodes_fit_tables;
use std::alloc::{AllocError, Global};
use step_lists::StepList;
use step_lists::laws::values_have_shapes;

/// A list behind all segments.
#[derive(Debug, Drop)]
pub(crate) struct Lowering {
    pub list: StepList<ClearTask>,
    pub ends: Vec<usize>,
    pub answers: Vec<Three<Option<u32>>>,
}

// The segment of a relation, which has no step: its rows stay in its owner's first slots.
fn lower_relation(
    list: &StepList<ClearTask>,
    graph: &Graph,
    number: usize,
) -> Result<Stored, AllocError>
    requires first { list.now.first ≡ first_lengths graph.now.nodes }
    requires relation { (node : Node) → slice_get graph.now.nodes number ≡ Some node → is_relation node.shape ≡ true }
    requires within { number < length graph.now.nodes }
    ensures { IfOk result (λ part. (node : Node) → slice_get graph.now.nodes number ≡ Some node → LowersNode graph.now list.now list.now number node part) }
{
    // Laws: padded rows are a table of these rows; a relation's rows are those of its file; values have their shapes.
    padded_fits();
    rows_of_padded();
    bags_are_equivalence();
    nodes_mean_operators();
    values_have_shapes::<ClearTask>();
    let _ = list.steps();
    let nodes = graph.nodes();
    let party = owner_of(&nodes[number].shape);
    match first_slot(nodes, number, party) {
        Some(first) => Ok(Stored::Clear { party, first }),
        None => Err(AllocError),
    }
}

// The segment of any other node: its operator on its sources' tables, which are shared where they are clear.
fn lower_operator(
    alloc: Global,
    list: &mut StepList<ClearTask>,
    graph: &Graph,
    parts: &[Stored],
    number: usize,
) -> Result<Stored, AllocError>
    requires unwritten { first_written graph.now.nodes ≡ None }
    requires operator { (node : Node) → slice_get graph.now.nodes number ≡ Some node → is_relation node.shape ≡ false }
    requires stores { StoresNodes graph.now list.old parts.now }
    requires next { length parts.now ≡ number }
    requires within { number < length graph.now.nodes }
    ensures { IfOk result (λ part. (node : Node) → slice_get graph.now.nodes number ≡ Some node → LowersNode graph.now list.old list.new number node part) }
{
    // Laws: a node's rows are its operator's on its sources' rows, the same bags give the same bag; values have their
    // shapes, and pieces add up.
    nodes_mean_operators();
    nodes_are_operators();
    nodes_are_written();
    nodes_fit_tables();
    operator_keeps_bags();
    bags_are_equivalence();
    values_have_shapes::<ClearTask>();
    let _ = list.steps();
    let nodes = graph.nodes();
    let tables = sources(alloc, list, nodes, parts, &nodes[number].shape)?;
    let _ = list.steps();
    let table = worked(list, graph, number, &tables)?;
    let _ = list.steps();
    Ok(Stored::Shared(table))
}

// The segment of the next node: where its rows are.
fn lower_node(
    alloc: Global,
    list: &mut StepList<ClearTask>,
    graph: &Graph,
    parts: &[Stored],
    number: usize,
) -> Result<Stored, AllocError>
    requires unwritten { first_written graph.now.nodes ≡ None }
    requires first { list.old.first ≡ first_lengths graph.now.nodes }
    requires stores { StoresNodes graph.now list.old parts.now }
    requires next { length parts.now ≡ number }
    requires within { number < length graph.now.nodes }
    ensures { IfOk result (λ part. (node : Node) → slice_get graph.now.nodes number ≡ Some node → LowersNode graph.now list.old list.new number node part) }
{
    if graph.nodes()[number].shape.is_relation() {
        let part = lower_relation(list, graph, number)?;
        return Ok(part);
    }
    let part = lower_operator(alloc, list, graph, parts, number)?;
    Ok(part)
}

// The segments of all nodes: where their rows are, and behind how many steps each ends.
fn lower_nodes(
    alloc: Global,
    list: &mut StepList<ClearTask>,
    graph: &Graph,
    ends: &mut Vec<usize>,
) -> Result<Vec<Stored>, AllocError>
    requires unwritten { first_written graph.now.nodes ≡ None }
    requires lowered { Lowered graph.now list.old [] ends.old.items [] }
    ensures count { IfOk result (λ parts. length parts.items ≡ length graph.now.nodes) }
    ensures lowered { IfOk result (λ parts. Lowered graph.now list.new parts.items ends.new.items []) }
{
    let mut parts = Vec::new(alloc);
    for number in 0..graph.nodes().len() {
        let part = lower_node(alloc, list, graph, &parts, number)?;
        parts.push(part)?;
        ends.push(list.steps().len())?;
    }
    Ok(parts)
}

// The segments of all outputs behind those of all nodes.
fn lower_outputs(
    alloc: Global,
    list: &mut StepList<ClearTask>,
    graph: &Graph,
    parts: &[Stored],
    ends: &mut Vec<usize>,
) -> Result<Vec<Three<Option<u32>>>, AllocError>
    requires all { length parts.now ≡ length graph.now.nodes }
    requires lowered { Lowered graph.now list.old parts.now ends.old.items [] }
    ensures count { IfOk result (λ answers. length answers.items ≡ length graph.now.outputs) }
    ensures lowered { IfOk result (λ answers. Lowered graph.now list.new parts.now ends.new.items answers.items) }
{
    let mut answers = Vec::new(alloc);
    for output in graph.outputs() {
        let slots = lower_output(alloc, list, graph, parts, output)?;
        answers.push(slots)?;
        ends.push(list.steps().len())?;
    }
    Ok(answers)
}

/// The list of a graph of which nothing isn't built.
pub(crate) fn lower(alloc: Global, graph: &Graph) -> Result<Lowering, AllocError>
    requires { first_written graph.now.nodes ≡ None }
    ensures { IfOk result (λ made. IsWhole graph.now made.list made.ends.items made.answers.items) }
{
    // Law: values have the shapes of a well-formed list's layout, and a list's contract says that it is one.
    values_have_shapes::<ClearTask>();
    let mut list = first_list(alloc, graph.nodes())?;
    let _ = list.steps();
    let mut ends = Vec::new(alloc);
    let parts = lower_nodes(alloc, &mut list, graph, &mut ends)?;
    let answers = lower_outputs(alloc, &mut list, graph, &parts, &mut ends)?;
    Ok(Lowering {
        list,
        ends,
        answers,
    })
}
