//! The graph of a query's first statements, as it is made.
#![tactic(auto)]

ghost use Rattle.std.specs.Prelude.{◌≡◌, ◌↔◌, [], IsTrue, OnOk};
ghost use Rattle.query_text.specs.Grammar.{Fits};
ghost use Rattle.query_graph.specs.Faults.{Passes};

use crate::columns::columns_of;
use crate::fault::GraphFault;
use crate::node::{Node, Output};
use crate::nodes::Nodes;
use crate::operators::{node_of, output_of};
use crate::rules::check_rules;
use crate::sizes::declared_rows;
use crate::used::check_known;
use query_text::Body;
use std::alloc::Global;
use std::marker::Model;

/// The nodes and outputs of first statements, with the cells of the nodes counted. Seen as both lists.
#[derive(Debug, Drop)]
pub(crate) struct Draft {
    nodes: Nodes,
    outputs: Vec<Output>,
    cells: u64,
}

impl Model for Draft {
    ghost use Rattle.query_graph.specs.Content.{Content};

    ghost Value = { Content };

    ghost use Rattle.query_graph.specs.Draft.{content_of, IsBuilt};

    ghost view = { content_of };

    ghost invariant = { IsBuilt };
}

impl Draft {
    ghost use Rattle.query_graph.specs.Build.{empty_graph, fault_of, with_statement};

    /// No nodes and no outputs.
    pub(crate) fn new(alloc: Global) -> Draft
        ensures { result ≡ empty_graph }
    {
        Draft {
            nodes: Nodes::new(alloc),
            outputs: Vec::new(alloc),
            cells: 0,
        }
    }

    /// The nodes and the outputs, each in the order of the text.
    pub(crate) fn into_lists(self) -> (Vec<Node>, Vec<Output>)
        ensures nodes { result.0.items ≡ self.nodes }
        ensures outputs { result.1.items ≡ self.outputs }
    {
        (self.nodes.into_list(), self.outputs)
    }

    /// Whether there is no output.
    pub(crate) fn has_no_output(&self) -> bool
        ensures { IsTrue result ↔ (self.now.outputs ≡ []) }
    {
        self.outputs.is_empty()
    }

    /// Adds a statement, or says which rule it breaks first.
    pub(crate) fn add(&mut self, alloc: Global, line: u32, body: &Body) -> Result<(), GraphFault>
        requires fits { Fits body.now }
        ensures rules { Passes result (fault_of self.old line body.now) }
        ensures added { OnOk result (self.new ≡ with_statement self.old line body.now) }
    {
        let nodes = &self.nodes;
        check_known(alloc, line, nodes, body)?;
        let columns = columns_of(alloc, nodes, body)?;
        let outputs = self.outputs.as_slice();
        let names = check_rules(alloc, nodes, outputs, self.cells, line, body, &columns)?;
        if let Some(output) = output_of(nodes, line, body) {
            self.outputs.push(output)?;
            return Ok(());
        }
        // No memory holds so many nodes.
        if nodes.len() >= u32::MAX as usize {
            return Err(GraphFault::Memory);
        }
        let rows = declared_rows(nodes, body) as u32;
        let cells = self.cells + u64::from(rows) * (columns.len() as u64 + 1);
        let node = node_of(alloc, nodes, line, body, columns)?;
        self.nodes.push(alloc, node, names)?;
        self.cells = cells;
        Ok(())
    }
}
