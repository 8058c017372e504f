//! A node's table in registers.

ghost use Rattle.std.specs.Prelude.{◌≡◌, ◌+◌, [], ◌∷◌, IfOk, length};
ghost use Rattle.step_lists.specs.Layout.{layout_of};
ghost use Rattle.step_lists.specs.declared.step.Step.TheVariants.{Share};
ghost use Rattle.step_lists.specs.Possible.{behind};
ghost use Rattle.query_graph.specs.Observers.{sources_of};
ghost use Rattle.lowering.specs.Pieces.{AreSources, IsJoined, IsShared, IsSource, wire};
ghost use Rattle.lowering.specs.Stored.{AreMade, IsMade};

use crate::push::push_step;
use crate::stored::Stored;
use clear_tasks::ClearTask;
use emit::laws::{pieces_add_up, quiet_steps_add};
use query_graph::{Node, Operator};
use shared_ops::Joint;
use std::alloc::{AllocError, Global};
use step_lists::laws::values_have_shapes;
use step_lists::{Step, StepList};
use wires::Wire;

// A register of a slot's words.
fn share_slot(list: &mut StepList<ClearTask>, party: u8, slot: u32) -> Result<Wire, AllocError>
    ensures added { IfOk result (λ _. list.new ≡ behind list.old (Share party slot ∷ [])) }
    ensures register { IfOk result (λ new. new ≡ wire (length (layout_of list.old).registers)) }
{
    let register = list.registers();
    push_step(list, Step::Share { party, slot })?;
    Ok(Wire(register))
}

// The sum of two numbers; one that is past the last finds no memory.
fn sum_of(left: u32, right: u32) -> Result<u32, AllocError>
    ensures { IfOk result (λ sum. sum ≡ left + right) }
{
    match left.checked_add(right) {
        Some(sum) => Ok(sum),
        None => Err(AllocError),
    }
}

// Registers of a table in a party's slots: its columns, and then its valid words.
fn share_table(
    alloc: Global,
    list: &mut StepList<ClearTask>,
    party: u8,
    first: u32,
    width: u32,
    rows: u32,
) -> Result<Joint, AllocError>
    ensures { IfOk result (λ new. IsShared list.old list.new rows width party first new) }
{
    let mut columns = Vec::new(alloc);
    for column in 0..width {
        let slot = sum_of(first, column)?;
        let wire = share_slot(list, party, slot)?;
        columns.push(wire)?;
    }
    let last = sum_of(first, width)?;
    let valid = share_slot(list, party, last)?;
    Ok(Joint {
        columns,
        valid,
        rows,
    })
}

// The same registers again.
fn same_table(alloc: Global, table: &Joint) -> Result<Joint, AllocError>
    ensures columns { IfOk result (λ new. new.columns.items ≡ table.now.columns.items) }
    ensures valid { IfOk result (λ new. new.valid ≡ table.now.valid) }
    ensures rows { IfOk result (λ new. new.rows ≡ table.now.rows) }
{
    let columns = Vec::from_slice(alloc, table.columns.as_slice())?;
    Ok(Joint {
        columns,
        valid: table.valid,
        rows: table.rows,
    })
}

// How many columns a node has.
fn width_of(node: &Node) -> Result<u32, AllocError>
    ensures { IfOk result (λ width. width ≡ length node.now.columns) }
{
    match u32::try_from(node.columns.len()) {
        Ok(width) => Ok(width),
        Err(_) => Err(AllocError),
    }
}

/// What is stored of a node, in registers: a clear table is shared by its party.
pub(crate) fn joined(
    alloc: Global,
    list: &mut StepList<ClearTask>,
    stored: &Stored,
    node: &Node,
) -> Result<Joint, AllocError>
    requires { IsMade (layout_of list.old) node.now.rows (length node.now.columns) stored.now }
    ensures { IfOk result (λ new. IsJoined list.old list.new node.now.rows (length node.now.columns) stored.now new) }
{
    // Laws: steps that open nothing show nothing, and so do none.
    quiet_steps_add::<ClearTask>();
    pieces_add_up::<ClearTask>();
    match stored {
        Stored::Clear { party, first } => {
            let width = width_of(node)?;
            let table = share_table(alloc, list, *party, *first, width, node.rows)?;
            Ok(table)
        }
        Stored::Shared(table) => {
            let same = same_table(alloc, table)?;
            Ok(same)
        }
    }
}

// What is stored of the node with this number, in registers.
fn joined_source(
    alloc: Global,
    list: &mut StepList<ClearTask>,
    nodes: &[Node],
    parts: &[Stored],
    source: u32,
) -> Result<Joint, AllocError>
    requires { AreMade nodes.now (layout_of list.old) parts.now }
    ensures { IfOk result (λ new. IsSource nodes.now list.old list.new parts.now source new) }
{
    let Some(node) = nodes.get(source as usize) else {
        return Err(AllocError);
    };
    let Some(part) = parts.get(source as usize) else {
        return Err(AllocError);
    };
    let table = joined(alloc, list, part, node)?;
    Ok(table)
}

/// The tables of an operator's sources, in registers.
pub(crate) fn sources(
    alloc: Global,
    list: &mut StepList<ClearTask>,
    nodes: &[Node],
    parts: &[Stored],
    shape: &Operator,
) -> Result<Vec<Joint>, AllocError>
    requires { AreMade nodes.now (layout_of list.old) parts.now }
    ensures { IfOk result (λ tables. AreSources nodes.now list.old list.new parts.now (sources_of shape.now) tables.items) }
{
    // Laws: pieces add up, and values have the shapes of a well-formed list's layout.
    pieces_add_up::<ClearTask>();
    values_have_shapes::<ClearTask>();
    let mut tables = Vec::new(alloc);
    for index in 0..shape.source_count() {
        let Some(source) = shape.source(index) else {
            return Err(AllocError);
        };
        // Its contract says that the list is well-formed.
        let _ = list.steps();
        let table = joined_source(alloc, list, nodes, parts, source)?;
        tables.push(table)?;
    }
    Ok(tables)
}
