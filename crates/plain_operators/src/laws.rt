//! Laws of the operators. Each function does nothing, and its contract is the law.
ghost use Rattle.plain_operators.specs.Cuts.{AggregatesOfCuts, OperatorsOfCuts};
ghost use Rattle.plain_operators.specs.Firsts.{DistinctOfFirsts, GroupOfFirsts};
ghost use Rattle.plain_operators.specs.Folds.{AggregatesAreFolds};
ghost use Rattle.plain_operators.specs.JoinedColumns.{JoinedColumns};
ghost use Rattle.plain_operators.specs.Laws.{OperatorsKeepBags, OperatorsOfAppend, GroupOfBlocks, WholeTableIsGroup, DistinctIsGroup};
ghost use Rattle.plain_operators.specs.OnSources.{OperatorKeepsBags, OperatorKeepsSize, OperatorKeepsWidth};
ghost use Rattle.plain_operators.specs.Places.{FilterOfPlaces, JoinOfPlaces};
ghost use Rattle.plain_operators.specs.Regroup.{AggregatesOfAppend, RegroupOfParts};
ghost use Rattle.plain_operators.specs.Sizes.{ItemsGiveWords, OperatorCounts, OperatorsKeepWidths, OperatorsKeepWords};

/// Each operator gives the same bag for the same bags.
pub fn operators_keep_bags()
    ensures { OperatorsKeepBags }
{
    bags::laws::bags_keep_rows();
    bags::laws::bags_of_map();
    bags::laws::bags_of_filter();
    bags::laws::bags_of_flat_map();
    bags::laws::fold_of_words();
    bags::laws::words_of_rows();
}

/// Filter, select and join of appended lists.
pub fn operators_of_append()
    ensures { OperatorsOfAppend }
{
    bags::laws::bags_of_flat_map();
}

/// Rows cut into blocks of equal keys have as their group one row for each block.
pub fn group_of_blocks()
    ensures { GroupOfBlocks }
{}

/// A group without keys is the group by no column.
pub fn whole_table_is_group()
    ensures { WholeTableIsGroup }
{}

/// Distinct rows are the group by all columns without aggregates.
pub fn distinct_is_group()
    ensures { DistinctIsGroup }
{}

/// The rows of each operator are as wide as its columns.
pub fn operators_keep_widths()
    ensures { OperatorsKeepWidths }
{}

/// Each operator gives words below 2^64 for such words.
pub fn operators_keep_words()
    ensures { OperatorsKeepWords }
{}

/// Items with word constants give words below 2^64 for rows of such words.
pub fn items_give_words()
    ensures { ItemsGiveWords }
{}

/// How many rows each operator gives at most.
pub fn operator_counts()
    ensures { OperatorCounts }
{}

/// An aggregate of appended rows is combined from those of the parts.
pub fn aggregates_of_append()
    ensures { AggregatesOfAppend }
{}

/// Grouping the groups of parts again is grouping the rows of all parts.
pub fn regroup_of_parts()
    ensures { RegroupOfParts }
{}

/// A filter is the rows at the places that pass.
pub fn filter_of_places()
    ensures { FilterOfPlaces }
{}

/// A join is the joined rows of the matching pairs of places, in nested order.
pub fn join_of_places()
    ensures { JoinOfPlaces }
{}

/// Distinct rows, and the rows of a group, stand at the places that are first with their row or their keys.
pub fn operators_of_firsts()
    ensures distinct { DistinctOfFirsts }
    ensures group { GroupOfFirsts }
{}

/// What is wanted of each operator's rows has the same bag where the columns that it depends on have.
pub fn operators_of_cuts()
    ensures { OperatorsOfCuts }
{
    bags::laws::bags_keep_rows();
    bags::laws::bags_of_append();
    bags::laws::bags_of_map();
    bags::laws::bags_of_tested_images();
    bags::laws::fold_of_words();
}

/// Aggregates of columns that depend on some columns are the same where the bags of these are.
pub fn aggregates_of_cuts()
    ensures { AggregatesOfCuts }
{
    bags::laws::bags_keep_rows();
    bags::laws::bags_of_append();
    bags::laws::bags_of_map();
    bags::laws::bags_of_tested_images();
    bags::laws::fold_of_words();
}

/// Which words a joined row has, by the numbers of its columns.
#[tactic(auto, using(crate::proofs::JoinedColumns::joined_columns))]
pub fn joined_columns()
    ensures { JoinedColumns }
{}

/// An aggregate of each kind is a fold of its column, from the neutral word or from the first one.
pub fn aggregates_are_folds()
    ensures { AggregatesAreFolds }
{}

/// An operator on sources that are the same bags gives the same bag.
pub fn operator_keeps_bags()
    ensures { OperatorKeepsBags }
{
    bags::laws::bags_of_concat();
    operators_keep_bags();
}

/// The rows of an operator have the width that follows from those of its sources.
pub fn operator_keeps_width()
    ensures { OperatorKeepsWidth }
{
    operators_keep_widths();
}

/// An operator has no more rows than follows from its sources', and that number rises with theirs.
pub fn operator_keeps_size()
    ensures { OperatorKeepsSize }
{
    operator_counts();
}
