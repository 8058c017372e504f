//! The trust of a graph from its nodes.
#![tactic(auto)]

ghost use Rattle.std.specs.Prelude.{◌≡◌, IfOk};
ghost use Rattle.trust_sets.specs.Known as known;
ghost use Rattle.trust_sets.specs.Trust.{HasOwner, trust_of};

use crate::known::Known;
use crate::operators::{
    known_at, known_concat, known_distinct, known_filter, known_group, known_join, known_relation,
    known_select, nobody,
};
use crate::trust::Trust;
use crate::withheld::withheld_node;
use query_graph::{Graph, Operator};
use std::alloc::{AllocError, Global};

// Who may know the node that follows these.
fn known_node(alloc: Global, shape: &Operator, earlier: &[Known]) -> Result<Known, AllocError>
    requires { HasOwner shape.now }
    ensures { IfOk result (λ made. made ≡ known.known_node shape.now earlier.now) }
{
    let nobody = nobody(alloc);
    match shape {
        Operator::Relation(r) => known_relation(alloc, r),
        Operator::Filter(f) => {
            let source = known_at(earlier, &nobody, f.source);
            known_filter(alloc, source, f.tests.as_slice())
        }
        Operator::Select(s) => {
            let source = known_at(earlier, &nobody, s.source);
            known_select(alloc, source, s)
        }
        Operator::Concat(c) => known_concat(alloc, earlier, &nobody, c.sources.as_slice()),
        Operator::Join(j) => {
            let left = known_at(earlier, &nobody, j.left);
            let right = known_at(earlier, &nobody, j.right);
            known_join(alloc, left, right, j.keys.as_slice())
        }
        Operator::Group(g) => {
            let source = known_at(earlier, &nobody, g.source);
            known_group(alloc, source, g)
        }
        Operator::Distinct(d) => {
            let source = known_at(earlier, &nobody, d.source);
            known_distinct(alloc, source)
        }
    }
}

/// Who may know the rows and the columns of each node, and what of each node's relations isn't released.
pub fn derive_trust(alloc: Global, graph: &Graph) -> Result<Trust, AllocError>
    ensures { IfOk result (λ trust. trust ≡ trust_of graph.now.nodes) }
{
    let mut trust = Trust::new(alloc);
    for (number, node) in graph.nodes().iter().enumerate() {
        let known = known_node(alloc, &node.shape, trust.known())?;
        let withheld = withheld_node(number as u32, &node.shape, trust.withheld());
        trust.push(known, withheld)?;
    }
    Ok(trust)
}
