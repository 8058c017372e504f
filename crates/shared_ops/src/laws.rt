//! Laws of shared operators. Each function does nothing, and its contract is the law.

ghost use Rattle.shared_ops.specs.NodeLaws.{NodesFitTables};

use plain_meaning::laws::{nodes_are_operators, nodes_fit_earlier};
use query_graph::{bounds_make_smaller, nodes_have_sizes};

/// In every graph the operator of a node that is no relation fits tables of its sources' widths, and has the columns of
/// the node; without a bound it has its rows.
pub fn nodes_fit_tables()
    ensures { NodesFitTables }
{
    nodes_fit_earlier();
    nodes_have_sizes();
    bounds_make_smaller();
    nodes_are_operators();
}
