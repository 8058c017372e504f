//! Laws of parts and of nodes that are up. Each function does nothing, and its contract is the law.
#![tactic(auto)]

ghost use Rattle.rewrites.specs.IsUp.{UpInWords};
ghost use Rattle.rewrites.specs.Laws.{NodesHaveParts, PartsAddUp, PartsAreKnown, PartsAreRows};
ghost use Rattle.rewrites.specs.Opened.{OpenedBySources, UpIsUndone};

use bags::laws::bags_of_injective_map;
use plain_meaning::laws::{nodes_are_wide, nodes_mean_operators};
use plain_operators::laws::operators_of_append;
use query_graph::{nodes_are_written, nodes_have_sizes};
use trust_sets::{nodes_know_from_earlier, rows_narrow, trust_lemma, trust_steps};

/// Each node of a graph has parts, one at least, that come from those of its sources.
#[tactic(auto, using(crate::proofs::NodesParts::nodes_have_parts))]
pub fn nodes_have_parts()
    ensures { NodesHaveParts }
{
    nodes_are_written();
}

/// The rows of a node's parts add up to its own, where no node has both several parts and a bound `at most`.
pub fn parts_add_up()
    ensures { PartsAddUp }
{
    nodes_are_written();
    nodes_have_sizes();
}

/// In every world the rows of a node's parts, one part after the other, are its plain rows.
pub fn parts_are_rows()
    ensures { PartsAreRows }
{
    operators_of_append();
    nodes_are_written();
    nodes_mean_operators();
}

/// In two worlds whose files agree for a party, each part of a node whose rows it may know is the same for it.
pub fn parts_are_known()
    ensures { PartsAreKnown }
{
    nodes_are_written();
    nodes_know_from_earlier();
    trust_steps();
    rows_narrow();
    trust_lemma();
}

/// Exactly the selects are up that name no party, have a joint part under them, copy each column of their source, and are
/// used once, by an output or by a select that is up.
#[tactic(auto, using(crate::proofs::UpWords::up_in_words))]
pub fn up_in_words()
    ensures { UpInWords }
{}

/// For a node that is up what is opened is what is opened for its source, an earlier node; any other is opened itself.
#[tactic(auto, using(crate::proofs::Opened::opened_by_sources))]
pub fn opened_by_sources()
    ensures { OpenedBySources }
{
    nodes_are_written();
}

/// What a recipient works out of the opened rows of a node, by the selects that are up, are the node's plain rows; a map
/// that looks at no file undoes it, so that the bag of the node's rows tells the bag of the opened ones.
pub fn up_is_undone()
    ensures { UpIsUndone }
{
    nodes_are_written();
    nodes_mean_operators();
    nodes_are_wide();
    bags_of_injective_map();
}
