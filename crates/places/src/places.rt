//! The places of a graph.
#![tactic(auto)]

ghost use Rattle.std.specs.Prelude.{◌≡◌};

use crate::place::Place;
use query_graph::Flag;
use std::marker::Model;

/// For each node of a graph, by its number from 0, its place and its AND words; the sum of these with the outputs'; and
/// the flags of its bounds, in their order. Seen as these.
#[derive(Debug, Drop)]
pub struct Places {
    places: Vec<Place>,
    words: Vec<u64>,
    total: u64,
    flags: Vec<Flag>,
}

impl Model for Places {
    ghost use Rattle.places.specs.Places as seen;

    ghost Value = { seen.Places };

    ghost view = { λ all. record { places = all.places.items; words = all.words.items; total = all.total; flags = all.flags.items } };
}

impl Places {
    ghost use Rattle.std.specs.Prelude.{◌<◌, Some, length, slice_get};

    pub(crate) fn new(places: Vec<Place>, words: Vec<u64>, total: u64, flags: Vec<Flag>) -> Places
        ensures { result ≡ record { places = places.items; words = words.items; total = total; flags = flags.items } }
    {
        Places {
            places,
            words,
            total,
            flags,
        }
    }

    /// The place of a node.
    pub fn place_of(&self, node: u32) -> Place
        requires { node < length self.now.places }
        ensures { slice_get self.now.places node ≡ Some result }
    {
        self.places[node as usize]
    }

    /// The most AND words of a node.
    pub fn and_words(&self, node: u32) -> u64
        requires { node < length self.now.words }
        ensures { slice_get self.now.words node ≡ Some result }
    {
        self.words[node as usize]
    }

    /// The most AND words of all nodes and outputs.
    pub fn total(&self) -> u64
        ensures { result ≡ self.now.total }
    {
        self.total
    }

    /// The flags of all bounds: in the order of nodes, of a node those of parts first, and these in the order of parties.
    pub fn flags(&self) -> &Vec<Flag>
        ensures { result.now.items ≡ self.now.flags }
    {
        &self.flags
    }
}
