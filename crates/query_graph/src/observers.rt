//! What is written on a node, whatever its operator: its sources, its bounds, its parties.
#![tactic(auto)]

ghost use Rattle.std.specs.Prelude.{◌≡◌, [], ◌∷◌, length, slice_get};
ghost use Rattle.query_graph.specs.NodeSizes.{BoundsMakeSmaller, NodesAreWritten, NodesHaveSizes};
ghost use Rattle.query_graph.specs.Observers.{at_most_of, clear_at_of, is_relation, parts_at_most_of, sources_of, via_of};

use crate::operator::Operator;

impl Operator {
    /// Whether it is a relation, whose rows are those of a file.
    pub fn is_relation(&self) -> bool
        ensures { result ≡ is_relation self.now }
    {
        matches!(self, Operator::Relation(_))
    }

    /// How many sources it has.
    pub fn source_count(&self) -> usize
        ensures { result ≡ length (sources_of self.now) }
    {
        match self {
            Operator::Relation(_) => 0,
            Operator::Concat(concat) => concat.sources.len(),
            Operator::Join(_) => 2,
            Operator::Filter(_)
            | Operator::Select(_)
            | Operator::Group(_)
            | Operator::Distinct(_) => 1,
        }
    }

    /// The number of the node that is its source of this index, from 0, `None` where it has no such source.
    pub fn source(&self, index: usize) -> Option<u32>
        ensures { result ≡ slice_get (sources_of self.now) index }
    {
        match self {
            Operator::Relation(_) => None,
            Operator::Filter(filter) => only(filter.source, index),
            Operator::Select(select) => only(select.source, index),
            Operator::Concat(concat) => concat.sources.as_slice().get(index).copied(),
            Operator::Join(join) => match index {
                0 => Some(join.left),
                1 => Some(join.right),
                _ => None,
            },
            Operator::Group(group) => only(group.source, index),
            Operator::Distinct(distinct) => only(distinct.source, index),
        }
    }

    /// The most rows that it may have, where the text bounds them.
    pub fn at_most(&self) -> Option<u32>
        ensures { result ≡ at_most_of self.now }
    {
        match self {
            Operator::Filter(filter) => filter.at_most,
            Operator::Join(join) => join.at_most,
            Operator::Group(group) => group.at_most,
            Operator::Distinct(distinct) => distinct.at_most,
            Operator::Relation(_) | Operator::Select(_) | Operator::Concat(_) => None,
        }
    }

    /// The most groups that each party's parts may have, where the text bounds them.
    pub fn parts_at_most(&self) -> Option<u32>
        ensures { result ≡ parts_at_most_of self.now }
    {
        match self {
            Operator::Group(group) => group.parts_at_most,
            Operator::Relation(_)
            | Operator::Filter(_)
            | Operator::Select(_)
            | Operator::Concat(_)
            | Operator::Join(_)
            | Operator::Distinct(_) => None,
        }
    }

    /// The party at which the text has it worked out in the clear.
    pub fn clear_at(&self) -> Option<u8>
        ensures { result ≡ clear_at_of self.now }
    {
        match self {
            Operator::Filter(filter) => filter.clear_at,
            Operator::Select(select) => select.clear_at,
            Operator::Join(join) => join.clear_at,
            Operator::Group(group) => group.clear_at,
            Operator::Distinct(distinct) => distinct.clear_at,
            Operator::Relation(_) | Operator::Concat(_) => None,
        }
    }

    /// The party to which the text shows its keys.
    pub fn via(&self) -> Option<u8>
        ensures { result ≡ via_of self.now }
    {
        match self {
            Operator::Join(join) => join.via,
            Operator::Group(group) => group.via,
            Operator::Relation(_)
            | Operator::Filter(_)
            | Operator::Select(_)
            | Operator::Concat(_)
            | Operator::Distinct(_) => None,
        }
    }
}

// The one source at index 0.
fn only(source: u32, index: usize) -> Option<u32>
    ensures { result ≡ slice_get (source ∷ []) index }
{
    if index == 0 { Some(source) } else { None }
}

/// A law: in every graph a node with sources has the rows and as many columns as its operator says of theirs.
#[tactic(auto, using(crate::proofs::NodeSizes::nodes_have_sizes))]
pub fn nodes_have_sizes()
    ensures { NodesHaveSizes }
{}

/// A law: bounds only make a node smaller, and where none is written, its size is the one without them.
#[tactic(auto, using(crate::proofs::NodeSizes::bounds_make_smaller))]
pub fn bounds_make_smaller()
    ensures { BoundsMakeSmaller }
{}

/// A law: in every graph the sources of a node are earlier nodes, and its bounds and parties can be written.
#[tactic(auto, using(crate::proofs::NodeSizes::nodes_are_written))]
pub fn nodes_are_written()
    ensures { NodesAreWritten }
{}
