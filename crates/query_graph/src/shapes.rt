//! Which columns and parts stand together.
#![tactic(auto)]

ghost use Rattle.std.specs.Prelude.{◌≡◌};
ghost use Rattle.std.specs.List.{list_all};
ghost use Rattle.query_graph.specs.Names.{node_columns};
ghost use Rattle.query_graph.specs.Shapes.{keyless_fits, same_column, same_columns, shape_fits};

use crate::kinds::same_kind;
use crate::nodes::Nodes;
use query_text::{Body, Bytes};
use words::Column;

fn same_column(left: &Column, right: &Column) -> bool
    ensures { result ≡ same_column left.now right.now }
{
    left.name.bytes() == right.name.bytes() && same_kind(left.kind, right.kind)
}

// Whether both have the same names and kinds in the same order.
fn same_columns(left: &[Column], right: &[Column]) -> bool
    ensures { result ≡ same_columns left.now right.now }
{
    if left.len() != right.len() {
        return false;
    }
    for (index, column) in left.iter().enumerate() {
        if !same_column(column, &right[index]) {
            return false;
        }
    }
    true
}

// Whether the nodes of these names have these columns.
fn all_same(nodes: &Nodes, columns: &[Column], names: &[Bytes]) -> bool
    ensures { result ≡ list_all (λ name. same_columns (node_columns nodes.now name) columns.now) names.now }
{
    names
        .iter()
        .all(|name| same_columns(nodes.source(name).columns(), columns))
}

/// Whether the sources of a concat have the same columns, and the parts of a group stand together.
pub(crate) fn shape_fits(nodes: &Nodes, body: &Body) -> bool
    ensures { result ≡ shape_fits nodes.now body.now }
{
    match body {
        Body::Relation(_) => true,
        Body::Filter(_) => true,
        Body::Select(_) => true,
        Body::Concat(c) => {
            let sources = c.sources.as_slice();
            all_same(nodes, nodes.first_source(sources).columns(), sources)
        }
        Body::Join(_) => true,
        Body::Group(g) => {
            keyless_fits(g.keys.as_slice(), g.via, g.at_most, g.parts_at_most)
                && (g.parts_at_most.is_none() || g.clear_at.is_none())
        }
        Body::Distinct(_) => true,
        Body::Output(_) => true,
    }
}

// Whether a group has keys, or else none of the parts that want them.
fn keyless_fits(keys: &[Bytes], via: Option<u8>, at_most: Option<u64>, parts: Option<u64>) -> bool
    ensures { result ≡ keyless_fits keys.now via at_most parts }
{
    !keys.is_empty() || via.is_none() && at_most.is_none() && parts.is_none()
}
