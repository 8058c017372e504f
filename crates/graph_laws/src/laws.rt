//! Laws of graphs. Each function does nothing, and its contract is the law.
ghost use Rattle.graph_laws.specs.Graphs.{GraphsAreWritten};

use query_text::{one_reading, texts_give_statements};

/// A query's graph has a node for each statement that is no output, in order, and an output for each other one, and on each
/// stands what its statement writes: names, parties, bounds, tests, items, keys and aggregates, over the columns that have
/// the written names.
pub fn graphs_are_written()
    ensures { GraphsAreWritten }
{
    one_reading();
    texts_give_statements();
}
