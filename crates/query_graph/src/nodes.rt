//! Earlier nodes, found by their names.
#![tactic(auto)]

ghost use Rattle.std.specs.Prelude.{◌≡◌, ◌≤◌, ◌++◌, [], ◌∷◌, false, length, OnErr, OnOk};
ghost use Rattle.query_graph.specs.Names.{is_node, node_columns, node_number, node_rows};
ghost use Rattle.query_graph.specs.Columns.{first_columns};

use crate::names::Names;
use crate::node::Node;
use crate::source::Source;
use query_text::Bytes;
use std::alloc::{AllocError, Global};
use std::marker::Model;

/// Nodes in the order of the text, with tables of their names and of those of their columns. Seen as the
/// list of the nodes.
#[derive(Debug, Drop)]
pub(crate) struct Nodes {
    list: Vec<Node>,
    // The names of the nodes in their order, so that the place of a name is its node's number.
    names: Names,
    // For each node the names of its columns, in their order.
    columns: Vec<Names>,
}

impl Model for Nodes {
    ghost use Rattle.std.specs.Prelude.{List};
    ghost use Rattle.query_graph.specs.declared.node.Node.{Node};
    ghost use Rattle.query_graph.specs.Tables.{HasNodeNames};

    ghost Value = { List Node };

    ghost view = { λ n. n.list.items };

    ghost invariant = { HasNodeNames };
}

impl Nodes {
    ghost use Rattle.query_graph.specs.Tables.{column_names};

    /// No nodes.
    pub(crate) fn new(alloc: Global) -> Nodes
        ensures { result ≡ [] }
    {
        Nodes {
            list: Vec::new(alloc),
            names: Names::new(alloc),
            columns: Vec::new(alloc),
        }
    }

    /// The nodes without their tables.
    pub(crate) fn into_list(self) -> Vec<Node>
        ensures { result.items ≡ self }
    {
        self.list
    }

    /// How many nodes there are.
    pub(crate) fn len(&self) -> usize
        ensures { result ≡ length self.now }
    {
        self.list.len()
    }

    /// Whether a node has this name.
    #[tactic(auto, using(crate::proofs::Tables::among_nodes))]
    pub(crate) fn has(&self, name: &[u8]) -> bool
        ensures { result ≡ is_node self.now name.now }
    {
        self.names.has(name)
    }

    /// How many nodes stand before the one with this name.
    #[tactic(auto, using(crate::proofs::Tables::number_of_node))]
    pub(crate) fn number(&self, name: &[u8]) -> usize
        ensures number { result ≡ node_number self.now name.now }
        ensures within { result ≤ length self.now }
    {
        self.names.number(name)
    }

    /// The columns of the node with this name.
    #[tactic(auto, using(crate::proofs::Tables::columns_found, crate::proofs::Tables::columns_missing))]
    pub(crate) fn source(&self, name: &Bytes) -> Source<'_>
        ensures { result ≡ node_columns self.now name.now }
    {
        let number = self.number(name.bytes());
        match self.list.get(number) {
            Some(node) => Source::new(node.columns.as_slice(), &self.columns[number]),
            None => Source::none(),
        }
    }

    /// The columns of the first of these nodes.
    pub(crate) fn first_source(&self, names: &[Bytes]) -> Source<'_>
        ensures { result ≡ first_columns self.now names.now }
    {
        match names.first() {
            Some(name) => self.source(name),
            None => Source::none(),
        }
    }

    /// The rows of the node with this name.
    #[tactic(auto, using(crate::proofs::Tables::rows_found, crate::proofs::Tables::rows_missing))]
    pub(crate) fn rows(&self, name: &Bytes) -> u32
        ensures { result ≡ node_rows self.now name.now }
    {
        match self.list.get(self.number(name.bytes())) {
            Some(node) => node.rows,
            None => 0,
        }
    }

    /// Adds a node with a new name, whose columns have these names.
    pub(crate) fn push(
        &mut self,
        alloc: Global,
        node: Node,
        columns: Names,
    ) -> Result<(), AllocError>
        requires new { is_node self.old node.name ≡ false }
        requires columns { columns ≡ column_names node.columns }
        ensures added { OnOk result (self.new ≡ self.old ++ node ∷ []) }
        ensures kept { OnErr result (self.new ≡ self.old) }
    {
        self.list.reserve(1)?;
        self.columns.reserve(1)?;
        self.names.add(alloc, node.name.bytes())?;
        self.list.push(node).unwrap();
        self.columns.push(columns).unwrap();
        Ok(())
    }
}
