//! Whether two worlds agree for a party.
#![tactic(auto)]

ghost use Rattle.std.specs.Prelude.{◌≡◌, ◌↔◌, None, IsTrue, IfOk};
ghost use Rattle.query_text.specs.Parties.{IsParty};
ghost use Rattle.plain_meaning.specs.Fits.{IsWorldOf};
ghost use Rattle.plain_meaning.specs.Plain.{rows_of_tables};
ghost use Rattle.trust_sets.specs.Differs.{DifferencesAreOne, IsDifference, IsWithinBounds};

use crate::answers::first_answer;
use crate::files::{first_own_file, first_trusted_part};
use crate::trust::Trust;
use plain_meaning::World;
use query_graph::{Flag, Graph};
use std::alloc::{AllocError, Global};

/// The first part of agreement that fails. A relation or an output is the number of its node.
#[derive(Clone, Copy, Debug, PartialEq, Eq)]
pub enum Differs {
    /// The first relation of the party whose rows differ as lists.
    OwnFile {
        relation: u32,
    },
    /// The first relation of another party whose rows, cut to the columns that the party may know, differ as bags.
    Trusted {
        relation: u32,
    },
    /// The first excess of each world, which differ.
    Excess {
        first: Option<Flag>,
        second: Option<Flag>,
    },
    /// The first output to the party whose rows differ as bags.
    Answer {
        output: u32,
    },
}

fn same_excess(left: Option<Flag>, right: Option<Flag>) -> bool
    ensures { IsTrue result ↔ (left ≡ right) }
{
    left == right
}

/// Whether two worlds, each with its first excess, agree for a party, or the first part of agreement that fails: the
/// party's own files as lists; of each other relation whose rows it may know the columns that it may know, as bags;
/// the first excess; and where there is none, its answers as bags.
///
/// Takes n log n comparisons of rows, and the memory of the cut rows and of the rows of all nodes.
pub fn agree(
    alloc: Global,
    graph: &Graph,
    trust: &Trust,
    party: u8,
    world: &World,
    other: &World,
    excess: Option<Flag>,
    other_excess: Option<Flag>,
) -> Result<Option<Differs>, AllocError>
    requires party { IsParty party }
    requires world { IsWorldOf graph.now.nodes (rows_of_tables world.now) }
    requires other { IsWorldOf graph.now.nodes (rows_of_tables other.now) }
    requires within { excess ≡ None → IsWithinBounds graph.now.nodes (rows_of_tables world.now) }
    requires other_within { other_excess ≡ None → IsWithinBounds graph.now.nodes (rows_of_tables other.now) }
    ensures { IfOk result (λ differs. IsDifference graph.now trust.now.known party (rows_of_tables world.now) (rows_of_tables other.now)
        excess other_excess differs) }
{
    let nodes = graph.nodes();
    if let Some(relation) = first_own_file(nodes, party, world, other) {
        return Ok(Some(Differs::OwnFile { relation }));
    }
    if let Some(relation) = first_trusted_part(alloc, nodes, trust, party, world, other)? {
        return Ok(Some(Differs::Trusted { relation }));
    }
    if !same_excess(excess, other_excess) {
        return Ok(Some(Differs::Excess {
            first: excess,
            second: other_excess,
        }));
    }
    if excess.is_some() {
        return Ok(None);
    }
    match first_answer(alloc, graph, party, world, other)? {
        None => Ok(None),
        Some(output) => Ok(Some(Differs::Answer { output })),
    }
}

/// A law: two worlds have one difference at most.
#[tactic(auto, using(crate::proofs::Differences::differences_are_one))]
pub fn differences_are_one()
    ensures { DifferencesAreOne }
{}
