//! Circuits behind a list: the operator of a node on its sources' tables, and zeros in place of rows that aren't valid.

ghost use Rattle.std.specs.Prelude.{◌≡◌, IfOk, None, Some, false, length, slice_get};
ghost use Rattle.query_graph.specs.Observers.{is_relation, sources_of};
ghost use Rattle.step_lists.specs.Layout.{layout_of};
ghost use Rattle.lowering.specs.Pieces.{AreWorkable, IsWorked, IsZeroed};
ghost use Rattle.lowering.specs.Stored.{AreRegisters};

use clear_tasks::ClearTask;
use emit::Emit;
use emit::laws::wires_leave;
use plain_meaning::laws::nodes_are_operators;
use query_graph::{Graph, nodes_are_written};
use shared_ops::laws::nodes_fit_tables;
use shared_ops::{Joint, joint_node, zeroed};
use std::alloc::AllocError;
use step_lists::StepList;

/// The operator of a node, on registers of its sources' tables.
pub(crate) fn worked(
    list: &mut StepList<ClearTask>,
    graph: &Graph,
    number: usize,
    tables: &Vec<Joint>,
) -> Result<Joint, AllocError>
    requires { AreWorkable graph.now list.old number tables.now.items }
    ensures { IfOk result (λ new. IsWorked graph.now list.old list.new number tables.now.items new) }
{
    // Laws: each node's operator fits its sources' tables, and what wires leave of a list.
    nodes_fit_tables();
    nodes_are_operators();
    nodes_are_written();
    wires_leave::<ClearTask>();
    let node = &graph.nodes()[number];
    let mut wires = Emit::new(list);
    let new = joint_node(&mut wires, tables, node)?;
    // Their contracts say that the list is well-formed, and its registers short.
    let _ = list.steps();
    let _ = list.registers();
    Ok(new)
}

/// The table with zeros at each place without a row.
pub(crate) fn zeroed_table(
    list: &mut StepList<ClearTask>,
    table: &Joint,
) -> Result<Joint, AllocError>
    requires { AreRegisters (layout_of list.old) table.now.rows (length table.now.columns.items) table.now }
    ensures { IfOk result (λ new. IsZeroed list.old list.new table.now.rows (length table.now.columns.items) table.now new) }
{
    // Law: what wires leave of a list.
    wires_leave::<ClearTask>();
    let mut wires = Emit::new(list);
    let new = zeroed(&mut wires, table)?;
    // Their contracts say that the list is well-formed, and its registers short.
    let _ = list.steps();
    let _ = list.registers();
    Ok(new)
}
