//! Names with their numbers.
#![tactic(auto)]

ghost use Rattle.std.specs.Prelude.{◌≡◌, ◌≤◌, ◌++◌, [], ◌∷◌, if◌then◌else◌, length, not, IfOk, OnErr};
ghost use Rattle.query_graph.specs.Names.{is_among, name_number};

use indexmap::IndexSet;
use std::alloc::{AllocError, Global};
use std::marker::Model;

/// Names in the order in which they came, in a table that gives the number of each. Seen as their list.
#[derive(Debug, Drop)]
pub(crate) struct Names {
    table: IndexSet<Vec<u8>>,
}

impl Model for Names {
    ghost use Rattle.std.specs.Prelude.{ℕ, List, map};

    ghost Value = { List (List ℕ) };

    ghost view = { λ n. map (λ key. key.items) n.table.keys };
}

impl Names {
    /// No names.
    pub(crate) fn new(alloc: Global) -> Names
        ensures { result ≡ [] }
    {
        Names {
            table: IndexSet::new(alloc),
        }
    }

    /// Whether the name is one of these.
    pub(crate) fn has(&self, name: &[u8]) -> bool
        ensures { result ≡ is_among self.now name.now }
    {
        self.table.contains(name)
    }

    /// How many names stand before this one.
    #[tactic(auto, using(crate::proofs::Tables::key_found, crate::proofs::Tables::key_missing))]
    pub(crate) fn number(&self, name: &[u8]) -> usize
        ensures number { result ≡ name_number self.now name.now }
        ensures within { result ≤ length self.now }
    {
        match self.table.get_index_of(name) {
            Some(number) => number,
            None => self.table.len(),
        }
    }

    /// Adds a name behind the others, where it isn't one of them. Says whether it is new.
    pub(crate) fn add(&mut self, alloc: Global, name: &[u8]) -> Result<bool, AllocError>
        ensures new { IfOk result (λ new. new ≡ not (is_among self.old name.now)) }
        ensures added { IfOk result (λ new. self.new ≡ (if new then self.old ++ name.now ∷ [] else self.old)) }
        ensures kept { OnErr result (self.new ≡ self.old) }
    {
        let name = Vec::from_slice(alloc, name)?;
        let new = self.table.insert(name)?;
        Ok(new)
    }
}
