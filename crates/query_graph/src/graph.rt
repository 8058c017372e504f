//! The graph of a query.
#![tactic(auto)]

ghost use Rattle.std.specs.Prelude.{◌≡◌};
ghost use Rattle.query_graph.specs.IsGraph.{IsGraph};

use crate::draft::Draft;
use crate::node::{Node, Output};
use std::marker::Model;

/// Nodes in the order of the text, each of which uses only earlier ones, and outputs. A node's number is
/// its place from 0. Seen as both lists.
#[derive(Debug, Drop)]
pub struct Graph {
    nodes: Vec<Node>,
    outputs: Vec<Output>,
}

impl Model for Graph {
    ghost use Rattle.query_graph.specs.Content.{Content};

    ghost Value = { Content };

    ghost use Rattle.query_graph.specs.Graph.{content_of};
    ghost use Rattle.query_graph.specs.IsGraph.{IsGraph};

    ghost view = { content_of };

    ghost invariant = { λ graph. IsGraph (content_of graph) };
}

impl Graph {
    // The graph of all statements.
    pub(crate) fn new(draft: Draft) -> Graph
        requires graph { IsGraph draft }
        ensures { result ≡ draft }
    {
        let (nodes, outputs) = draft.into_lists();
        Graph { nodes, outputs }
    }

    /// The nodes, in the order of the text.
    pub fn nodes(&self) -> &Vec<Node>
        ensures nodes { result.now.items ≡ self.now.nodes }
        ensures graph { IsGraph self.now }
    {
        &self.nodes
    }

    /// The outputs, in the order of the text.
    pub fn outputs(&self) -> &Vec<Output>
        ensures outputs { result.now.items ≡ self.now.outputs }
        ensures graph { IsGraph self.now }
    {
        &self.outputs
    }
}
