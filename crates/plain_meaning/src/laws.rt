//! Laws of the rows of nodes. Each function does nothing, and its contract is the law.
#![tactic(auto)]

ghost use Rattle.words.specs.Texts.{TextsAreWords};
ghost use Rattle.plain_operators.specs.Sizes.{ItemsGiveWords, OperatorCounts, OperatorsKeepWidths, OperatorsKeepWords};
ghost use Rattle.plain_meaning.specs.Columns.{NodesHaveColumns};
ghost use Rattle.plain_meaning.specs.Laws.{FilesAreWorlds, NodesAreOfWords, NodesAreWide, NodesFitEarlier, NodesKeepSizes, NodesMeanOperators};
ghost use Rattle.plain_meaning.specs.Operators.{NodesAreOperators};

use plain_operators::laws::{
    items_give_words, operator_counts, operators_keep_widths, operators_keep_words,
};
use words::texts_are_words;

/// The rows of each node are those of its operator on the rows of all earlier nodes.
pub fn nodes_mean_operators()
    ensures { NodesMeanOperators }
{
    row_laws();
}

/// The rows of a node are those of its operator on the rows of its sources, and without bounds it has as many rows at
/// most as its operator.
#[tactic(auto, using(crate::proofs::Operators::nodes_are_operators))]
pub fn nodes_are_operators()
    ensures { NodesAreOperators }
{}

/// Which columns a node has, with names and kinds: a filter, a concat and a distinct those of the sources, a select and a
/// group's aggregates one of each item's kind, a group first its keys, a join its keys, the left's others and the right's.
#[tactic(auto, using(crate::proofs::NodeColumns::nodes_have_columns))]
pub fn nodes_have_columns()
    ensures { NodesHaveColumns }
{}

/// The operator of each node fits the widths of the earlier nodes: its sources are there, its columns are in range, and
/// its rows are as wide as the node's columns.
pub fn nodes_fit_earlier()
    ensures { NodesFitEarlier }
{}

/// The rows of each node are as wide as its columns.
pub fn nodes_are_wide()
    ensures { NodesAreWide }
{
    row_laws();
}

/// A node has at most its declared rows, where no node up to it breaks a bound.
pub fn nodes_keep_sizes()
    ensures { NodesKeepSizes }
{
    row_laws();
}

/// The words of each node's rows are below 2^64, where no earlier node breaks a bound.
pub fn nodes_are_of_words()
    ensures { NodesAreOfWords }
{
    row_laws();
}

/// The rows of a graph's files, of which the tables are its world, fit the graph.
#[tactic(auto, using(crate::proofs::Files::world_of_files))]
pub fn files_are_worlds()
    ensures { FilesAreWorlds }
{}

// The laws of the operators and of texts on which those of nodes stand.
fn row_laws()
    ensures widths { OperatorsKeepWidths }
    ensures words { OperatorsKeepWords }
    ensures items { ItemsGiveWords }
    ensures counts { OperatorCounts }
    ensures texts { TextsAreWords }
{
    operators_keep_widths();
    operators_keep_words();
    items_give_words();
    operator_counts();
    texts_are_words();
}
