//! The rewriting of a graph.
#![tactic(auto)]

ghost use Rattle.std.specs.Prelude.{◌≡◌};

use crate::part::Part;
use listed::Listed;
use std::marker::Model;

/// For each node of a graph, by its number from 0: its parts, and whether it is up. Seen as these two lists.
#[derive(Debug, Drop)]
pub struct Rewritten {
    parts: Vec<Listed<Part>>,
    up: Vec<bool>,
}

impl Model for Rewritten {
    ghost use Rattle.rewrites.specs.Rewritten as seen;

    ghost Value = { seen.Rewritten };

    ghost view = { λ rewritten. record { parts = rewritten.parts.items; up = rewritten.up.items } };
}

impl Rewritten {
    ghost use Rattle.std.specs.Prelude.{◌<◌, length};
    ghost use Rattle.rewrites.specs.Parts.{parts_at};
    ghost use Rattle.rewrites.specs.Up.{is_up_at};

    pub(crate) fn new(parts: Vec<Listed<Part>>, up: Vec<bool>) -> Rewritten
        ensures { result ≡ record { parts = parts.items; up = up.items } }
    {
        Rewritten { parts, up }
    }

    /// The parts of a node: one with all its rows, or those of its sources.
    pub fn parts(&self, node: u32) -> &Listed<Part>
        requires { node < length self.now.parts }
        ensures { result.now ≡ parts_at self.now.parts node }
    {
        &self.parts[node as usize]
    }

    /// Whether a node is a select that its recipient works out after the opening.
    pub fn is_up(&self, node: u32) -> bool
        requires { node < length self.now.up }
        ensures { result ≡ is_up_at self.now.up node }
    {
        self.up[node as usize]
    }
}
