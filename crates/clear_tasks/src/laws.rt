//! Laws of tasks. Each function computes nothing, and its contract is the law.
ghost use Rattle.clear_tasks.specs.Laws.{SortedIsTold, SortedTakesTables};

/// A padded table's shapes fit `Sorted`, which gives a table of the same shapes.
pub fn sorted_takes_tables()
    ensures { SortedTakesTables }
{}

/// Of the columns and the valid words of a padded table `Sorted` gives the table that is told.
pub fn sorted_is_told()
    ensures { SortedIsTold }
{}
