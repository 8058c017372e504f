//! Whether the names that a statement uses are known.
#![tactic(auto)]

ghost use Rattle.std.specs.Prelude.{◌≡◌};
ghost use Rattle.query_graph.specs.Faults.{first_fault, Passes};
ghost use Rattle.query_graph.specs.Used.{unknown_name, unknown_node, unknown_operand};

use crate::fault::GraphFault;
use crate::nodes::Nodes;
use crate::source::Source;
use query_text::{AggregateText, Body, Bytes, ItemText, OperandText, TestText};
use std::alloc::Global;
use words::{Column, Label};

/// A part of a statement that uses columns of its sources, of both where there are two.
pub(crate) trait Uses: Sized {
    ghost use Rattle.std.specs.Prelude.{ℕ, List, Option};
    ghost use Rattle.words.specs.declared.column.Column.{Column};
    ghost use Rattle.query_graph.specs.declared.fault.GraphFault.{GraphFault};

    ghost unknown: { ℕ → List Column → List Column → Self → Option GraphFault };

    fn check_known(
        &self,
        alloc: Global,
        line: u32,
        left: &Source,
        right: &Source,
    ) -> Result<(), GraphFault>
        ensures { Passes result (unknown line left.now right.now self.now) };
}

/// The first name that a statement uses and that is unknown.
pub(crate) fn check_known(
    alloc: Global,
    line: u32,
    nodes: &Nodes,
    body: &Body,
) -> Result<(), GraphFault>
    ensures { Passes result (unknown_name line nodes.now body.now) }
{
    match body {
        Body::Relation(_) => Ok(()),
        Body::Filter(f) => {
            check_node_known(alloc, line, nodes, &f.source)?;
            let source = nodes.source(&f.source);
            check_all_known(alloc, line, &source, &source, f.tests.as_slice())
        }
        Body::Select(s) => {
            check_node_known(alloc, line, nodes, &s.source)?;
            let source = nodes.source(&s.source);
            check_all_known(alloc, line, &source, &source, s.items.as_slice())
        }
        Body::Concat(c) => check_nodes_known(alloc, line, nodes, c.sources.as_slice()),
        Body::Join(j) => {
            check_node_known(alloc, line, nodes, &j.left)?;
            check_node_known(alloc, line, nodes, &j.right)?;
            let left = nodes.source(&j.left);
            let right = nodes.source(&j.right);
            check_all_known(alloc, line, &left, &right, j.keys.as_slice())
        }
        Body::Group(g) => {
            check_node_known(alloc, line, nodes, &g.source)?;
            let source = nodes.source(&g.source);
            check_all_known(alloc, line, &source, &source, g.keys.as_slice())?;
            check_all_known(alloc, line, &source, &source, g.aggregates.as_slice())
        }
        Body::Distinct(d) => check_node_known(alloc, line, nodes, &d.source),
        Body::Output(o) => check_node_known(alloc, line, nodes, &o.node),
    }
}

// The first part of a list that uses an unknown column.
fn check_all_known<P: Uses>(
    alloc: Global,
    line: u32,
    left: &Source,
    right: &Source,
    parts: &[P],
) -> Result<(), GraphFault>
    ensures { Passes result (first_fault (P.unknown line left.now right.now) parts.now) }
{
    for part in parts {
        part.check_known(alloc, line, left, right)?;
    }
    Ok(())
}

// Whether an earlier node has this name.
fn check_node_known(alloc: Global, line: u32, nodes: &Nodes, name: &Bytes) -> Result<(), GraphFault>
    ensures { Passes result (unknown_node line nodes.now name.now) }
{
    if nodes.has(name.bytes()) {
        return Ok(());
    }
    let name = Label::new(alloc, name.bytes())?;
    Err(GraphFault::Unknown { line, name })
}

// The first of these names that no earlier node has.
fn check_nodes_known(
    alloc: Global,
    line: u32,
    nodes: &Nodes,
    names: &[Bytes],
) -> Result<(), GraphFault>
    ensures { Passes result (first_fault (unknown_node line nodes.now) names.now) }
{
    for name in names {
        check_node_known(alloc, line, nodes, name)?;
    }
    Ok(())
}

fn check_operand_known(
    alloc: Global,
    line: u32,
    left: &Source,
    right: &Source,
    operand: &OperandText,
) -> Result<(), GraphFault>
    ensures { Passes result (unknown_operand line left.now right.now operand.now) }
{
    match operand {
        OperandText::Name(name) => name.check_known(alloc, line, left, right),
        OperandText::Number(_) => Ok(()),
        OperandText::Quoted(_) => Ok(()),
        OperandText::True => Ok(()),
        OperandText::False => Ok(()),
    }
}

impl Uses for Bytes {
    ghost use Rattle.query_graph.specs.Used.{unknown_column};

    ghost unknown = { unknown_column };

    fn check_known(
        &self,
        alloc: Global,
        line: u32,
        left: &Source,
        right: &Source,
    ) -> Result<(), GraphFault> {
        if left.has(self.bytes()) && right.has(self.bytes()) {
            return Ok(());
        }
        let name = Label::new(alloc, self.bytes())?;
        Err(GraphFault::Unknown { line, name })
    }
}

impl Uses for TestText {
    ghost use Rattle.query_graph.specs.Used.{unknown_in_test};

    ghost unknown = { unknown_in_test };

    fn check_known(
        &self,
        alloc: Global,
        line: u32,
        left: &Source,
        right: &Source,
    ) -> Result<(), GraphFault> {
        check_operand_known(alloc, line, left, right, &self.left)?;
        check_operand_known(alloc, line, left, right, &self.right)
    }
}

impl Uses for ItemText {
    ghost use Rattle.query_graph.specs.Used.{unknown_in_item};

    ghost unknown = { unknown_in_item };

    fn check_known(
        &self,
        alloc: Global,
        line: u32,
        left: &Source,
        right: &Source,
    ) -> Result<(), GraphFault> {
        match self {
            ItemText::Same(name) => name.check_known(alloc, line, left, right),
            ItemText::Copied(_, operand) => {
                check_operand_known(alloc, line, left, right, operand)
            }
            ItemText::Computed(_, first, _, second) => {
                check_operand_known(alloc, line, left, right, first)?;
                check_operand_known(alloc, line, left, right, second)
            }
        }
    }
}

impl Uses for AggregateText {
    ghost use Rattle.query_graph.specs.Used.{unknown_in_aggregate};

    ghost unknown = { unknown_in_aggregate };

    fn check_known(
        &self,
        alloc: Global,
        line: u32,
        left: &Source,
        right: &Source,
    ) -> Result<(), GraphFault> {
        match self {
            AggregateText::Sum(_, name) => name.check_known(alloc, line, left, right),
            AggregateText::Count(_) => Ok(()),
            AggregateText::Least(_, name) => name.check_known(alloc, line, left, right),
            AggregateText::Greatest(_, name) => name.check_known(alloc, line, left, right),
        }
    }
}
