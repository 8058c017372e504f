//! Sets of the three parties.
#![tactic(auto)]

ghost use Rattle.std.specs.Prelude.{◌≡◌};
ghost use Rattle.query_text.specs.Parties.{IsParty};
ghost use Rattle.query_graph.specs.Parties.{has, with_party, no_party, common_parties, united_parties, parties_of, has_number, SetsByMembers};

/// A set of the parties 1, 2 and 3.
#[derive(Clone, Copy, Debug, PartialEq, Eq)]
pub struct Parties {
    first: bool,
    second: bool,
    third: bool,
}

impl Parties {
    /// The set that has no party.
    pub fn none() -> Parties
        ensures { result ≡ no_party }
    {
        Parties {
            first: false,
            second: false,
            third: false,
        }
    }

    /// The set with this party too.
    pub fn with(self, party: u8) -> Parties
        requires { IsParty party }
        ensures { result ≡ with_party self party }
    {
        Parties {
            first: self.first || party == 1,
            second: self.second || party == 2,
            third: self.third || party == 3,
        }
    }

    /// Whether the set has this party. It has no number but 1, 2 and 3.
    pub fn contains(&self, party: u8) -> bool
        ensures { result ≡ has self.now party }
    {
        match party {
            1 => self.first,
            2 => self.second,
            3 => self.third,
            _ => false,
        }
    }

    /// The parties that both sets have.
    pub fn meet(self, other: Parties) -> Parties
        ensures { result ≡ common_parties self other }
    {
        Parties {
            first: self.first && other.first,
            second: self.second && other.second,
            third: self.third && other.third,
        }
    }

    /// The parties that one of the sets has.
    pub fn either(self, other: Parties) -> Parties
        ensures { result ≡ united_parties self other }
    {
        Parties {
            first: self.first || other.first,
            second: self.second || other.second,
            third: self.third || other.third,
        }
    }

    // The parties with these numbers.
    pub(crate) fn of_numbers(numbers: &[u8]) -> Parties
        ensures { result ≡ parties_of numbers.now }
    {
        Parties {
            first: has_number(numbers, 1),
            second: has_number(numbers, 2),
            third: has_number(numbers, 3),
        }
    }
}

// Whether this number is among them.
fn has_number(numbers: &[u8], party: u8) -> bool
    ensures { result ≡ has_number party numbers.now }
{
    numbers.iter().any(|number| *number == party)
}

/// A law: a set is fixed by the parties that it has, and each way to make one has exactly those that its
/// name says.
pub fn sets_by_members()
    ensures { SetsByMembers }
{}
