//! Laws of padded tables. Each function computes nothing, and its contract is the law.
ghost use Rattle.padded.specs.Laws.{OpenedOfBags, PaddedFits, RowsFitTable, RowsOfAppended, RowsOfCut, RowsOfGathered, RowsOfKept, RowsOfMapped, RowsOfOrdered, RowsOfPadded, RowsOfPairs, RowsOfZeroed, ToldOfBags};

/// How many valid rows a table has at most, how wide they are, and that they are of words where the columns are.
pub fn rows_fit_table()
    ensures { RowsFitTable }
{}

/// The table of rows has these rows.
pub fn rows_of_padded()
    ensures { RowsOfPadded }
{}

/// The table of rows is so many columns of so many words, with valid words of 0 and 1.
pub fn padded_fits()
    ensures { PaddedFits }
{}

/// Words gathered at the same places of every column and of the valid words: the rows at these places.
pub fn rows_of_gathered()
    ensures { RowsOfGathered }
{}

/// An order applied to every column and to the valid words keeps the bag of rows.
pub fn rows_of_ordered()
    ensures { RowsOfOrdered }
{
    tapes::row_laws();
    bags::laws::bags_of_filter();
    bags::laws::bags_of_map();
}

/// Columns whose row at each valid place is a function of another table's row there have the images of its rows.
pub fn rows_of_mapped()
    ensures { RowsOfMapped }
{}

/// A table cut to some columns has its rows cut to them.
pub fn rows_of_cut()
    ensures { RowsOfCut }
{}

/// Valid words that leave in the rows that pass a test.
pub fn rows_of_kept()
    ensures { RowsOfKept }
{}

/// Tables one behind the other have their rows one behind the other.
pub fn rows_of_appended()
    ensures { RowsOfAppended }
{}

/// A table with a place for each pair of rows has the joined rows of the pairs that match, in nested order.
pub fn rows_of_pairs()
    ensures { RowsOfPairs }
{
    lanes::table_laws();
}

/// Zeroed columns have the same rows, and opened they show these and zeros.
pub fn rows_of_zeroed()
    ensures { RowsOfZeroed }
{
    lanes::item_laws();
    bags::laws::bags_are_permutations();
}

/// The same bag of rows is opened as the same bag.
pub fn opened_of_bags()
    ensures { OpenedOfBags }
{
    bags::laws::bags_are_equivalence();
    bags::laws::bags_keep_rows();
    bags::laws::bags_of_map();
    bags::laws::bags_of_append();
}

/// The same bag of rows is told by the same columns, which have that bag.
pub fn told_of_bags()
    ensures { ToldOfBags }
{
    bags::laws::bags_keep_rows();
    bags::laws::bags_are_equivalence();
    bags::laws::sorted_tells_bags();
    bags::laws::sorted_is_in_order();
}
