//! Laws of the sets. Each function does nothing, and its contract is the law.
#![tactic(auto)]

ghost use Rattle.bags.specs.Laws.{BagsOfAppend, BagsOfMap};
ghost use Rattle.plain_operators.specs.Cuts.{AggregatesOfCuts, OperatorsOfCuts};
ghost use Rattle.plain_operators.specs.Laws.{WholeTableIsGroup};
ghost use Rattle.plain_operators.specs.Sizes.{OperatorsKeepWidths};
ghost use Rattle.trust_sets.specs.Laws.{ColumnsWithinRows, KeysAreKnown, NodesKnowFromEarlier, WhatRowsNeed};
ghost use Rattle.trust_sets.specs.MayKnow.{AgreementIsEquivalence, KnownColumnsAreSame, RowsNarrow, WhatColumnsNeed};
ghost use Rattle.trust_sets.specs.Rules.{RulesInWords};
ghost use Rattle.trust_sets.specs.Steps.{TrustLemma, TrustSteps};
ghost use Rattle.trust_sets.specs.Under.{WithheldIsFirst};

use bags::laws::{bags_are_equivalence, bags_of_append, bags_of_map};
use plain_meaning::laws::{nodes_are_wide, nodes_fit_earlier, nodes_mean_operators};
use plain_operators::laws::{
    aggregates_of_cuts, operators_keep_widths, operators_of_cuts, whole_table_is_group,
};

/// Who may know the rows of an operator, or a column of a select, may know the rows of its sources and the columns
/// on which these depend: tested columns, keys on both sides, all columns of a distinct, what an item uses.
#[tactic(auto, using(crate::proofs::Needs::what_rows_need))]
pub fn what_rows_need()
    ensures { WhatRowsNeed }
{}

/// Who may know a column of a node may know its rows.
#[tactic(auto, using(crate::proofs::Within::columns_within_rows))]
pub fn columns_within_rows()
    ensures { ColumnsWithinRows }
{}

/// The relation that isn't released to a party, as a trust names it for a node, stands under the node, and no earlier
/// such relation does.
#[tactic(auto, using(crate::proofs::Unreleased::withheld_is_first))]
pub fn withheld_is_first()
    ensures { WithheldIsFirst }
{}

/// The sets of a node come from its operator and the sets of the earlier nodes, and in a graph they have a place for
/// each of the node's columns.
#[tactic(auto, using(crate::proofs::EarlierNodes::nodes_know_from_earlier))]
pub fn nodes_know_from_earlier()
    ensures { NodesKnowFromEarlier }
{
    nodes_fit_earlier();
}

/// Who may know the rows of a join, or of a group, of a graph may know each key of each source.
#[tactic(auto, using(crate::proofs::EarlierNodes::keys_are_known))]
pub fn keys_are_known()
    ensures { KeysAreKnown }
{
    nodes_fit_earlier();
}

/// Each operator on rows, also on parts of a node's: where a party may know the new rows, and the sources that it may
/// know are for it the same bags, so are the results. What the party may know of two lists of rows is their bag, cut to
/// the columns that it may know.
pub fn trust_steps()
    ensures { TrustSteps }
{
    step_laws();
}

/// The trust lemma: in two worlds whose files agree for a party, each node whose rows it may know has the same bag of
/// rows, cut to the columns that it may know. So whatever the party doesn't know of the files changes nothing that it
/// may know of any node.
pub fn trust_lemma()
    ensures { TrustLemma }
{
    step_laws();
    nodes_fit_earlier();
    nodes_mean_operators();
    nodes_are_wide();
}

/// The rules on trust and release: a query passes exactly where a party named by `via` may know each key of each source,
/// one named by `clear at` each column of each source, and each recipient is in the release set of every relation under
/// the output. Where one fails, the first such statement in the text is named, and in it the first that fails.
#[tactic(auto, using(crate::proofs::RuleLines::rules_in_words))]
pub fn rules_in_words()
    ensures { RulesInWords }
{}

/// Who may know a column of an operator's rows may know the columns of its sources from which it comes: of a filter and
/// of a concat the same columns, the column of an aggregate, and a join's other columns on each side.
#[tactic(auto, using(crate::proofs::MayKnow::what_columns_need))]
pub fn what_columns_need()
    ensures { WhatColumnsNeed }
{}

/// Columns that a party may each know have the same bag in rows that are the same for it; so has a node whose rows it may
/// know, in two worlds whose files agree for it.
pub fn known_columns_are_same()
    ensures { KnownColumnsAreSame }
{
    step_laws();
    nodes_fit_earlier();
    nodes_mean_operators();
    nodes_are_wide();
}

/// Rows that are the same for a party stay so with fewer known columns; a source's rows do with those of a concat, whose
/// parts they are.
#[tactic(auto, using(crate::proofs::MayKnow::rows_narrow))]
pub fn rows_narrow()
    ensures { RowsNarrow }
{
    operators_of_cuts();
}

/// Agreement of two worlds is an equivalence.
#[tactic(auto, using(crate::proofs::MayKnow::agreement_is_equivalence))]
pub fn agreement_is_equivalence()
    ensures { AgreementIsEquivalence }
{
    bags_are_equivalence();
}

// The laws of bags and of the operators on which the steps stand.
fn step_laws()
    ensures append { BagsOfAppend }
    ensures maps { BagsOfMap }
    ensures cuts { OperatorsOfCuts }
    ensures aggregates { AggregatesOfCuts }
    ensures whole { WholeTableIsGroup }
    ensures widths { OperatorsKeepWidths }
{
    bags_of_append();
    bags_of_map();
    operators_of_cuts();
    aggregates_of_cuts();
    whole_table_is_group();
    operators_keep_widths();
}
