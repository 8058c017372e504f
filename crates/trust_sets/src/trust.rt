//! The trust of a graph.
#![tactic(auto)]

ghost use Rattle.std.specs.Prelude.{◌≡◌};

use crate::known::Known;
use crate::withheld::Withheld;
use query_graph::Parties;
use std::alloc::{AllocError, Global};
use std::marker::Model;

/// For each node of a graph, by its number from 0: who may know its rows and each of its columns, and which relation
/// under it isn't released to a party. Seen as these two lists.
#[derive(Debug, Drop)]
pub struct Trust {
    known: Vec<Known>,
    withheld: Vec<Withheld>,
}

impl Model for Trust {
    ghost use Rattle.trust_sets.specs.Trust as seen;

    ghost Value = { seen.Trust };

    ghost view = { λ trust. record { known = trust.known.items; withheld = trust.withheld.items } };
}

impl Trust {
    ghost use Rattle.std.specs.Prelude.{◌++◌, ◌∷◌, [], OnOk};
    ghost use Rattle.trust_sets.specs.Known.{column_set, known_at};
    ghost use Rattle.trust_sets.specs.Release as release;

    // Of no node.
    pub(crate) fn new(alloc: Global) -> Trust
        ensures { result ≡ record { known = []; withheld = [] } }
    {
        Trust {
            known: Vec::new(alloc),
            withheld: Vec::new(alloc),
        }
    }

    // Adds a node.
    pub(crate) fn push(&mut self, known: Known, withheld: Withheld) -> Result<(), AllocError>
        ensures { OnOk result (self.new ≡ record { known = self.old.known ++ known ∷ []; withheld = self.old.withheld ++ withheld ∷ [] }) }
    {
        self.known.push(known)?;
        self.withheld.push(withheld)?;
        Ok(())
    }

    /// Who may know a column of a node; no party where there is no such node or column.
    pub fn trust_of(&self, node: u32, column: u32) -> Parties
        ensures { result ≡ column_set (known_at self.now.known node) column }
    {
        match self.known.get(node as usize) {
            Some(known) => known.column(column),
            None => Parties::none(),
        }
    }

    /// Who may know the rows of a node; no party where there is no such node.
    pub fn rows_of(&self, node: u32) -> Parties
        ensures { result ≡ (known_at self.now.known node).rows }
    {
        match self.known.get(node as usize) {
            Some(known) => known.rows,
            None => Parties::none(),
        }
    }

    // Who may know each node.
    pub(crate) fn known(&self) -> &[Known]
        ensures { result.now ≡ self.now.known }
    {
        &self.known
    }

    // What isn't released under each node.
    pub(crate) fn withheld(&self) -> &[Withheld]
        ensures { result.now ≡ self.now.withheld }
    {
        &self.withheld
    }
}
