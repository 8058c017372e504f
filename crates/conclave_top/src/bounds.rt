//! Bounds that a query's statements write, which `plain` doesn't carry out yet.

ghost use Rattle.std.specs.Prelude.{◌≡◌, []};
ghost use Rattle.conclave_top.specs.declared.end.Cause.TheVariants.{Refused};
ghost use Rattle.conclave_top.specs.Bounds.{first_bound, is_bounded};
ghost use Rattle.conclave_top.specs.Due.{stops};
ghost use Rattle.conclave_top.specs.End.{Ended};
ghost use Rattle.conclave_top.specs.Job.{only};
ghost use Rattle.conclave_top.specs.Lines.{not_built};
ghost use Rattle.conclave_top.specs.Outside.{Ports};

use crate::end::{Cause, End};
use crate::lines::not_built;
use query_graph::{Node, Operator};
use std::alloc::Global;

/// How `plain` ends where the statement on this line has a bound.
pub(crate) fn unbuilt(alloc: Global, line: u32) -> End
    ensures { (ports : Ports) → Ended (only (stops Refused [] (not_built line))) ports ports result }
{
    match not_built(alloc, line) {
        Ok(line) => End::Stopped(Cause::Refused, line),
        Err(_) => End::Memory,
    }
}

/// The line of the first node with a bound.
pub(crate) fn first_bound(nodes: &[Node]) -> Option<u32>
    ensures { result ≡ first_bound nodes.now }
{
    for node in nodes {
        if is_bounded(&node.shape) {
            return Some(node.line);
        }
    }
    None
}

/// Whether a bound is written on the operator.
fn is_bounded(shape: &Operator) -> bool
    ensures { result ≡ is_bounded shape.now }
{
    shape.at_most().is_some() || shape.parts_at_most().is_some()
}
