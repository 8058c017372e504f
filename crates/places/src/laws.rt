//! Laws of places, AND words and flags. Each function does nothing, and its contract is the law.
#![tactic(auto)]

ghost use Rattle.places.specs.Laws.{AcceptedAreFew, NoExcessKeepsBounds, PiecesFit, PlacesInWords};

use rewrites::nodes_have_parts;

/// Where a node is worked in the clear at a party, that party is written on it, or all parts of its sources are clear
/// there. The party that helps a node is the one that is written after `via`, or else the least of those that may know its
/// rows.
pub fn places_in_words()
    ensures { PlacesInWords }
{
    nodes_have_parts();
}

/// The AND words of each operator by the table are at least what its pieces add up to.
pub fn pieces_fit()
    ensures { PiecesFit }
{}

/// Accepted places have a place and AND words for each node, and the words of all nodes and outputs are at most
/// 8,388,608 together.
pub fn accepted_are_few()
    ensures { AcceptedAreFew }
{}

/// In a world in which no flag of accepted places is above its bound, no node has more rows than its `at most`.
pub fn no_excess_keeps_bounds()
    ensures { NoExcessKeepsBounds }
{}
