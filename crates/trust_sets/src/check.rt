//! The first statement that asks for more than its sets allow.
#![tactic(auto)]

ghost use Rattle.std.specs.Prelude.{◌≡◌, ◌<◌, ◌^◌, true, false, length};
ghost use Rattle.trust_sets.specs.Faults as faults;
ghost use Rattle.trust_sets.specs.Known.{known_at};
ghost use Rattle.query_graph.specs.IsGraph.{IsGraph};

use crate::fault::TrustFault;
use crate::trust::Trust;
use crate::withheld::{Withheld, withheld_at};
use plain_operators::is_key;
use query_graph::{Graph, Node, Operator, Output};
use words::Column;

// The party that a statement names by `via` or by `clear at`.
fn named_by(shape: &Operator) -> Option<u8>
    ensures { result ≡ faults.named_by shape.now }
{
    shape.via().or(shape.clear_at())
}

fn is_left_key(keys: &[(u32, u32)], column: usize) -> bool
    ensures { result ≡ faults.is_key_of_side false keys.now column }
{
    keys.iter().any(|key| key.0 as usize == column)
}

fn is_right_key(keys: &[(u32, u32)], column: usize) -> bool
    ensures { result ≡ faults.is_key_of_side true keys.now column }
{
    keys.iter().any(|key| key.1 as usize == column)
}

// Whether a column is a key of a join, on the right or on the left.
fn is_key_of_side(right: bool, keys: &[(u32, u32)], column: usize) -> bool
    ensures { result ≡ faults.is_key_of_side right keys.now column }
{
    if right {
        is_right_key(keys, column)
    } else {
        is_left_key(keys, column)
    }
}

// Whether the named party is to know this column of the source.
fn is_needed(shape: &Operator, right: bool, column: usize) -> bool
    ensures { result ≡ faults.is_needed shape.now right column }
{
    match shape {
        Operator::Join(j) => j.via.is_none() || is_key_of_side(right, j.keys.as_slice(), column),
        Operator::Group(g) => g.via.is_none() || is_key(g.keys.as_slice(), column),
        _ => true,
    }
}

// The columns of the node with this number.
fn columns_at(nodes: &[Node], number: u32) -> &[Column]
    ensures { result.now ≡ faults.columns_at nodes.now number }
{
    match nodes.get(number as usize) {
        Some(node) => node.columns.as_slice(),
        None => &[],
    }
}

// The first column of a source that the party is to know and isn't trusted with.
fn untrusted_column(
    shape: &Operator,
    right: bool,
    trust: &Trust,
    source: u32,
    party: u8,
    columns: &[Column],
) -> Option<u32>
    requires { length columns.now < 2 ^ 32 }
    ensures { result ≡ faults.untrusted_column shape.now right (known_at trust.now.known source) party 0 columns.now }
{
    for column in 0..columns.len() {
        let number = column as u32;
        if is_needed(shape, right, column) && !trust.trust_of(source, number).contains(party) {
            return Some(number);
        }
    }
    None
}

// A place that a statement names: its node, by its number, and the party.
#[derive(Clone, Copy)]
struct Place<'a> {
    graph: &'a Graph,
    trust: &'a Trust,
    number: u32,
    node: &'a Node,
    party: u8,
}

impl Place<'_> {
    // The fault in one source.
    fn source_fault(&self, right: bool, source: u32) -> Option<TrustFault>
        ensures { result ≡ faults.source_fault self.now.graph.now self.now.trust.now.known self.now.number self.now.node.now self.now.party right source }
    {
        let columns = columns_at(self.graph.nodes(), source);
        let column = untrusted_column(
            &self.node.shape,
            right,
            self.trust,
            source,
            self.party,
            columns,
        )?;
        Some(TrustFault::Trust {
            line: self.node.line,
            node: self.number,
            origin: source,
            party: self.party,
            column,
        })
    }

    // The fault in the first source that has one.
    fn sources_fault(&self) -> Option<TrustFault>
        ensures { result ≡ faults.sources_fault self.now.graph.now self.now.trust.now.known self.now.number self.now.node.now self.now.party self.now.node.now.shape }
    {
        match &self.node.shape {
            Operator::Relation(_) => None,
            Operator::Filter(f) => self.source_fault(false, f.source),
            Operator::Select(s) => self.source_fault(false, s.source),
            Operator::Concat(_) => None,
            Operator::Join(j) => {
                let left = self.source_fault(false, j.left);
                left.or(self.source_fault(true, j.right))
            }
            Operator::Group(g) => self.source_fault(false, g.source),
            Operator::Distinct(d) => self.source_fault(false, d.source),
        }
    }
}

// The fault of the first node that has one.
fn nodes_fault(graph: &Graph, trust: &Trust) -> Option<TrustFault>
    ensures { result ≡ faults.nodes_fault graph.now trust.now.known 0 graph.now.nodes }
{
    for (number, node) in graph.nodes().iter().enumerate() {
        if let Some(party) = named_by(&node.shape) {
            let place = Place {
                graph,
                trust,
                number: number as u32,
                node,
                party,
            };
            let fault = place.sources_fault();
            if fault.is_some() {
                return fault;
            }
        }
    }
    None
}

// The fault of an output for one recipient.
fn recipient_fault(withheld: &[Withheld], output: &Output, party: u8) -> Option<TrustFault>
    ensures { result ≡ faults.recipient_fault withheld.now output.now party }
{
    if !output.recipients.contains(party) {
        return None;
    }
    let relation = withheld_at(withheld, output.node).from(party)?;
    Some(TrustFault::Release {
        line: output.line,
        output: output.node,
        party,
        relation,
    })
}

// The fault of an output for its lowest recipient that has one.
fn output_fault(withheld: &[Withheld], output: &Output) -> Option<TrustFault>
    ensures { result ≡ faults.output_fault withheld.now output.now }
{
    let later = recipient_fault(withheld, output, 2).or(recipient_fault(withheld, output, 3));
    recipient_fault(withheld, output, 1).or(later)
}

// The fault of the first output that has one.
fn outputs_fault(withheld: &[Withheld], outputs: &[Output]) -> Option<TrustFault>
    ensures { result ≡ faults.outputs_fault withheld.now outputs.now }
{
    for output in outputs {
        let fault = output_fault(withheld, output);
        if fault.is_some() {
            return fault;
        }
    }
    None
}

fn line_of(fault: TrustFault) -> u32
    ensures { result ≡ faults.line_of fault }
{
    match fault {
        TrustFault::Trust { line, .. } => line,
        TrustFault::Release { line, .. } => line,
    }
}

// The fault of the earlier line.
fn earlier_fault(a: Option<TrustFault>, b: Option<TrustFault>) -> Option<TrustFault>
    ensures { result ≡ faults.earlier_fault a b }
{
    match (a, b) {
        (None, other) => other,
        (Some(one), None) => Some(one),
        (Some(one), Some(other)) => Some(if line_of(one) <= line_of(other) {
            one
        } else {
            other
        }),
    }
}

/// Whether every statement keeps to the sets of trust and of release, or what the first asks for that doesn't: `via p`
/// on a node where p isn't trusted with a key of a source, `clear at p` where p isn't trusted with a column of a
/// source (the first source, and its column of the lowest number), or an output to a party to which a relation under
/// it isn't released (the lowest recipient, and the first relation in the text). Takes no memory.
pub fn check_trust(graph: &Graph, trust: &Trust) -> Result<(), TrustFault>
    ensures { result ≡ faults.checked (faults.first_fault graph.now trust.now) }
{
    let in_nodes = nodes_fault(graph, trust);
    let in_outputs = outputs_fault(trust.withheld(), graph.outputs());
    match earlier_fault(in_nodes, in_outputs) {
        None => Ok(()),
        Some(fault) => Err(fault),
    }
}
