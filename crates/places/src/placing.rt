//! The place of a node.
#![tactic(auto)]

ghost use Rattle.std.specs.Prelude.{◌≡◌, ◌<◌, length};
ghost use Rattle.places.specs.Place.{group_place, helper, hybrid_or_shared, joint_place, least_party, node_place, part_place, parts_place};

use crate::place::Place;
use query_graph::{Operator, Parties};
use rewrites::{Part, PartPlace, Rewritten};
use trust_sets::Trust;

fn least_party(set: Parties) -> Option<u8>
    ensures { result ≡ least_party set }
{
    if set.contains(1) {
        return Some(1);
    }
    if set.contains(2) {
        return Some(2);
    }
    if set.contains(3) { Some(3) } else { None }
}

fn hybrid_or_shared(party: Option<u8>) -> Place
    ensures { result ≡ hybrid_or_shared party }
{
    match party {
        Some(party) => Place::Hybrid(party),
        None => Place::Shared,
    }
}

// The party that helps a join or a group: the one that is written, else the least that may know the rows.
fn helper(via: Option<u8>, rows: Parties) -> Option<u8>
    ensures { result ≡ helper via rows }
{
    match via {
        Some(party) => Some(party),
        None => least_party(rows),
    }
}

fn group_place(keys: &[u32], via: Option<u8>, rows: Parties) -> Place
    ensures { result ≡ group_place keys.now via rows }
{
    match keys {
        [] => Place::Shared,
        [_, ..] => hybrid_or_shared(helper(via, rows)),
    }
}

// The place of a node with one joint part.
fn joint_place(shape: &Operator, rows: Parties) -> Place
    ensures { result ≡ joint_place shape.now rows }
{
    match shape {
        Operator::Join(join) => hybrid_or_shared(helper(join.via, rows)),
        Operator::Group(group) => group_place(group.keys.as_slice(), group.via, rows),
        Operator::Relation(_)
        | Operator::Filter(_)
        | Operator::Select(_)
        | Operator::Concat(_)
        | Operator::Distinct(_) => Place::Shared,
    }
}

fn part_place(place: PartPlace, shape: &Operator, rows: Parties) -> Place
    ensures { result ≡ part_place place shape.now rows }
{
    match place {
        PartPlace::Clear(party) => Place::Clear(party),
        PartPlace::Joint => joint_place(shape, rows),
    }
}

fn parts_place(parts: &[Part], shape: &Operator, rows: Parties) -> Place
    ensures { result ≡ parts_place parts.now shape.now rows }
{
    match parts {
        [only] => part_place(only.place, shape, rows),
        _ => Place::Split,
    }
}

// The place of the node with this number.
pub(crate) fn node_place(
    trust: &Trust,
    rewritten: &Rewritten,
    number: u32,
    shape: &Operator,
) -> Place
    requires parts { number < length rewritten.now.parts }
    requires up { number < length rewritten.now.up }
    ensures { result ≡ node_place trust.now.known rewritten.now number shape.now }
{
    if rewritten.is_up(number) {
        return Place::Up;
    }
    let parts = rewritten.parts(number).as_slice();
    parts_place(parts, shape, trust.rows_of(number))
}
