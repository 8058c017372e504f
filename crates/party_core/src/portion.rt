//! What is given to a party for one step.
#![tactic(auto)]

ghost use Rattle.std.specs.Prelude.{◌≡◌, IfOk};
ghost use Rattle.lanes.specs.Three.{at};
ghost use Rattle.step_lists.specs.Draws.{order_in, words_in};
ghost use Rattle.step_lists.specs.Part.{held_order};
ghost use Rattle.tapes.specs.Order.{inverse_of};
ghost use Rattle.party_core.specs.Doing.{slices};

use crate::draws::Draws;
use crate::messages::same_party;
use lanes::{Party, Three};
use std::alloc::{AllocError, Global};
use std::marker::Model;

/// The draws of a step on the two tapes, and the words that came for it from each party.
#[derive(Debug, Drop)]
pub(crate) struct Portion<'a> {
    own: Draws<'a>,
    following: Draws<'a>,
    received: Three<&'a [u64]>,
}

impl<'a> Model for Portion<'a> {
    ghost use Rattle.step_lists.specs.Part.{Given};
    ghost use Rattle.party_core.specs.Doing.{slices};

    ghost Value = { Given };

    ghost view = { λ p. record { own = p.own; following = p.following; received = slices p.received } };
}

impl<'a> Portion<'a> {
    /// Of these draws and words.
    pub(crate) fn new(
        own: Draws<'a>,
        following: Draws<'a>,
        received: Three<&'a [u64]>,
    ) -> Portion<'a>
        ensures { result ≡ record { own = own.entry; following = following.entry; received = slices received.entry } }
    {
        Portion {
            own,
            following,
            received,
        }
    }

    /// The words that are drawn of the party's own tape.
    pub(crate) fn own_words(&self) -> &[u64]
        ensures { result.now ≡ words_in self.now.own }
    {
        self.own.words()
    }

    /// The words that are drawn of the following party's tape.
    pub(crate) fn following_words(&self) -> &[u64]
        ensures { result.now ≡ words_in self.now.following }
    {
        self.following.words()
    }

    /// The words that came from a party.
    pub(crate) fn received(&self, source: Party) -> &[u64]
        ensures { result.now ≡ at source self.now.received }
    {
        self.received.at(source)
    }

    /// The order that is drawn of tape j, which the party holds.
    pub(crate) fn held_order(
        &self,
        alloc: Global,
        party: Party,
        j: Party,
    ) -> Result<Vec<u64>, AllocError>
        ensures { IfOk result (λ order. order.items ≡ held_order party j self.now) }
    {
        if same_party(party, j) {
            self.own.order(alloc)
        } else {
            self.following.order(alloc)
        }
    }

    /// The way back of the order that is drawn of the following party's tape.
    pub(crate) fn way_back(&self, alloc: Global) -> Result<Vec<u64>, AllocError>
        ensures { IfOk result (λ order. order.items ≡ inverse_of (order_in self.now.following)) }
    {
        self.following.inverse(alloc)
    }
}
