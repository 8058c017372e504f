//! Relations that aren't released.
#![tactic(auto)]

ghost use Rattle.std.specs.Prelude.{◌≡◌, map};
ghost use Rattle.std.specs.List.{fold};
ghost use Rattle.query_text.specs.Parties.{IsParty};
ghost use Rattle.trust_sets.specs.Release as release;
ghost use Rattle.trust_sets.specs.Trust.{HasOwner};

use query_graph::{Operator, Parties, Relation};

/// For each party the number of the first relation under a node that isn't released to it.
#[derive(Clone, Copy, Debug, PartialEq, Eq)]
pub struct Withheld {
    pub first: Option<u32>,
    pub second: Option<u32>,
    pub third: Option<u32>,
}

impl Withheld {
    fn nothing() -> Withheld
        ensures { result ≡ release.nothing_withheld }
    {
        Withheld {
            first: None,
            second: None,
            third: None,
        }
    }

    // The first relation that isn't released to this party.
    pub(crate) fn from(&self, party: u8) -> Option<u32>
        ensures { result ≡ release.withheld_from self.now party }
    {
        match party {
            1 => self.first,
            2 => self.second,
            3 => self.third,
            _ => None,
        }
    }

    fn or(self, other: Withheld) -> Withheld
        ensures { result ≡ release.withheld_of_both self other }
    {
        Withheld {
            first: first_relation(self.first, other.first),
            second: first_relation(self.second, other.second),
            third: first_relation(self.third, other.third),
        }
    }
}

fn first_relation(a: Option<u32>, b: Option<u32>) -> Option<u32>
    ensures { result ≡ release.first_relation a b }
{
    match (a, b) {
        (None, other) => other,
        (Some(one), None) => Some(one),
        (Some(one), Some(other)) => Some(one.min(other)),
    }
}

// Who may get rows that a relation goes into.
fn release_set(relation: &Relation) -> Parties
    requires { IsParty relation.now.owner }
    ensures { result ≡ release.release_set relation.now }
{
    let written = relation.release;
    if written.contains(1) || written.contains(2) || written.contains(3) {
        written.with(relation.owner)
    } else {
        Parties::none().with(1).with(2).with(3)
    }
}

fn unless_released(number: u32, set: Parties, party: u8) -> Option<u32>
    ensures { result ≡ release.unless_released number set party }
{
    if set.contains(party) {
        None
    } else {
        Some(number)
    }
}

// The relation with this number.
pub(crate) fn withheld_relation(number: u32, relation: &Relation) -> Withheld
    requires { IsParty relation.now.owner }
    ensures { result ≡ release.withheld_relation number (release.release_set relation.now) }
{
    let set = release_set(relation);
    Withheld {
        first: unless_released(number, set, 1),
        second: unless_released(number, set, 2),
        third: unless_released(number, set, 3),
    }
}

// Under the node with this number.
pub(crate) fn withheld_at(earlier: &[Withheld], node: u32) -> Withheld
    ensures { result ≡ release.withheld_at earlier.now node }
{
    match earlier.get(node as usize) {
        Some(withheld) => *withheld,
        None => Withheld::nothing(),
    }
}

// Under one of these nodes.
fn withheld_under(earlier: &[Withheld], sources: &[u32]) -> Withheld
    ensures { result ≡ fold release.withheld_of_both release.nothing_withheld (map (release.withheld_at earlier.now) sources.now) }
{
    let mut withheld = Withheld::nothing();
    for source in sources {
        withheld = withheld.or(withheld_at(earlier, *source));
    }
    withheld
}

// Under the node that follows these.
pub(crate) fn withheld_node(number: u32, shape: &Operator, earlier: &[Withheld]) -> Withheld
    requires { HasOwner shape.now }
    ensures { result ≡ release.withheld_node number shape.now earlier.now }
{
    match shape {
        Operator::Relation(r) => withheld_relation(number, r),
        Operator::Filter(f) => withheld_at(earlier, f.source),
        Operator::Select(s) => withheld_at(earlier, s.source),
        Operator::Concat(c) => withheld_under(earlier, c.sources.as_slice()),
        Operator::Join(j) => withheld_at(earlier, j.left).or(withheld_at(earlier, j.right)),
        Operator::Group(g) => withheld_at(earlier, g.source),
        Operator::Distinct(d) => withheld_at(earlier, d.source),
    }
}
