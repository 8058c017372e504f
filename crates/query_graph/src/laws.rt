//! Laws of graphs.
#![tactic(auto)]

ghost use Rattle.query_graph.specs.Laws.{NamesAreNumbers};
ghost use Rattle.query_graph.specs.TextGraph.{TextsHaveGraphs};

use query_text::{one_reading, texts_give_statements};

/// A law: in every graph the number of a name is the one place at which it stands, among the nodes and among
/// the columns of a node.
#[tactic(auto, using(crate::proofs::Numbered::names_are_numbers))]
pub fn names_are_numbers()
    ensures { NamesAreNumbers }
{}

/// A law: a text stops being a query at one place, or its statements have one fault, or it has one graph, and only one
/// of these. A text's graph is one of those of which every promise on graphs speaks.
pub fn texts_have_graphs()
    ensures { TextsHaveGraphs }
{
    one_reading();
    texts_give_statements();
}
