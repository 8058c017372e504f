//! The two shares of a register that a party holds.
#![tactic(auto)]

ghost use Rattle.std.specs.Prelude.{◌≡◌, IfOk};
ghost use Rattle.step_lists.specs.Part.{no_pair};

use std::alloc::{AllocError, Global};
use std::marker::Model;

/// A party's own share of a register, and the following party's.
#[derive(Debug, Drop)]
pub(crate) struct Pair {
    own: Vec<u64>,
    following: Vec<u64>,
}

impl Model for Pair {
    ghost use Rattle.step_lists.specs.Part.{Pair};

    ghost Value = { Pair };

    ghost view = { λ p. record { own = p.own.items; following = p.following.items } };
}

impl Pair {
    /// Two shares.
    pub(crate) fn new(own: Vec<u64>, following: Vec<u64>) -> Pair
        ensures { result ≡ record { own = own.items; following = following.items } }
    {
        Pair { own, following }
    }

    /// Two shares of no words.
    pub(crate) fn empty(alloc: Global) -> Pair
        ensures { result ≡ no_pair }
    {
        Pair::new(Vec::new(alloc), Vec::new(alloc))
    }

    /// The party's own share.
    pub(crate) fn own(&self) -> &[u64]
        ensures { result.now ≡ self.now.own }
    {
        self.own.as_slice()
    }

    /// The following party's share.
    pub(crate) fn following(&self) -> &[u64]
        ensures { result.now ≡ self.now.following }
    {
        self.following.as_slice()
    }

    /// The same in memory of its own.
    pub(crate) fn copy(&self, alloc: Global) -> Result<Pair, AllocError>
        ensures { IfOk result (λ pair. pair ≡ self.now) }
    {
        Ok(Pair::new(
            Vec::from_slice(alloc, &self.own)?,
            Vec::from_slice(alloc, &self.following)?,
        ))
    }
}
