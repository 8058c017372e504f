//! The parties of a set: whether there is one, the least, all of them.
#![tactic(auto)]

ghost use Rattle.std.specs.Prelude.{◌≡◌, ◌↔◌, IsTrue, IfOk};
ghost use Rattle.query_graph.specs.Members.{MembersAreListed, least_of, members_of};
ghost use Rattle.query_graph.specs.Parties.{no_party};

use crate::parties::Parties;
use std::alloc::{AllocError, Global};

impl Parties {
    /// Whether the set has no party.
    pub fn is_empty(&self) -> bool
        ensures { IsTrue result ↔ (self.now ≡ no_party) }
    {
        *self == Parties::none()
    }

    /// The least party of the set, `None` exactly where it has none.
    pub fn least(&self) -> Option<u8>
        ensures { result ≡ least_of self.now }
    {
        if self.contains(1) {
            Some(1)
        } else if self.contains(2) {
            Some(2)
        } else if self.contains(3) {
            Some(3)
        } else {
            None
        }
    }

    /// The parties of the set, rising.
    pub fn members(&self, alloc: Global) -> Result<Vec<u8>, AllocError>
        ensures { IfOk result (λ members. members.items ≡ members_of self.now) }
    {
        let parties: [u8; 3] = [1, 2, 3];
        parties
            .iter()
            .filter(|party| self.contains(**party))
            .copied()
            .collect(alloc)
    }
}

/// A law: the members of a set are its parties in rising order, and its least party is the first of them.
pub fn members_are_listed()
    ensures { MembersAreListed }
{}
