//! What is given to a party: its two tapes, and the words that came from each party.
#![tactic(auto)]

ghost use Rattle.std.specs.Prelude.{◌≡◌, ◌+◌, ◌≤◌, ◌++◌, IfOk, OnErr, OnOk, drop, length, take};
ghost use Rattle.lanes.specs.Party.{next};
ghost use Rattle.lanes.specs.Three.{at, put};
ghost use Rattle.step_lists.specs.Draws.{nothing, parties};
ghost use Rattle.party_core.specs.CoreView.{with_words};
ghost use Rattle.party_core.specs.Doing.{draws_by, portion_here, slices};
ghost use Rattle.party_core.specs.Holding.{lists};

use crate::draws::Draws;
use crate::lists::cut;
use crate::messages::no_words;
use crate::places::{Places, draw_count};
use crate::portion::Portion;
use lanes::{Party, Three};
use std::alloc::{AllocError, Global};
use std::marker::Model;
use step_lists::{Step, Task};
use tapes::Tape;

/// Two tapes, and the words that came from each party.
#[derive(Debug, Drop)]
pub(crate) struct Supply {
    own: Tape,
    following: Tape,
    received: Three<Vec<u64>>,
}

impl Model for Supply {
    ghost use Rattle.step_lists.specs.Part.{Given};
    ghost use Rattle.party_core.specs.Holding.{lists};

    ghost Value = { Given };

    ghost view = { λ s. record { own = s.own; following = s.following; received = lists s.received } };
}

impl Supply {
    /// Two tapes, before a word came.
    pub(crate) fn new(alloc: Global, own: Tape, following: Tape) -> Supply
        ensures { result ≡ record { own = own; following = following; received = nothing } }
    {
        Supply {
            own,
            following,
            received: no_words(alloc),
        }
    }

    /// The words that came from a party.
    pub(crate) fn received(&self, source: Party) -> &Vec<u64>
        ensures { result.now.items ≡ at source self.now.received }
    {
        self.received.at(source)
    }

    pub(crate) fn allocator(&self) -> Global {
        *self.received.first.allocator()
    }

    /// The words that came behind these places.
    pub(crate) fn left(&self, places: &Places) -> Three<&[u64]>
        ensures { slices result ≡ parties (λ p. drop (at p places.now.received) (at p self.now.received)) }
    {
        let (_, first) = cut(&self.received.first, places.received.first);
        let (_, second) = cut(&self.received.second, places.received.second);
        let (_, third) = cut(&self.received.third, places.received.third);
        Three {
            first,
            second,
            third,
        }
    }

    /// What is given to a party for the step that begins at these places.
    pub(crate) fn portion<T: Task>(
        &self,
        alloc: Global,
        places: &Places,
        party: Party,
        step: &Step<T>,
        rows: u32,
    ) -> Result<Portion<'_>, AllocError>
        requires own { places.now.own + draws_by party step.now rows ≤ length self.now.own }
        requires following { places.now.following + draws_by (next party) step.now rows ≤ length self.now.following }
        ensures { IfOk result (λ portion. portion ≡ portion_here self.now places.now party step.now rows) }
    {
        let own_count = draw_count(party, step, rows);
        let following_count = draw_count(party.next(), step, rows);
        // Their contracts say that a tape has fewer than 2^64 draws.
        let _ = (self.own.len(), self.following.len());
        let own = Draws::read(alloc, &self.own, places.own, own_count as usize)?;
        let following = Draws::read(
            alloc,
            &self.following,
            places.following,
            following_count as usize,
        )?;
        Ok(Portion::new(own, following, self.left(places)))
    }

    /// The places behind a step that began at these, where nothing came for a further one.
    pub(crate) fn places_behind<T: Task>(
        &self,
        places: &Places,
        party: Party,
        step: &Step<T>,
        rows: u32,
    ) -> Places
        requires own { places.now.own + draws_by party step.now rows ≤ length self.now.own }
        requires following { places.now.following + draws_by (next party) step.now rows ≤ length self.now.following }
        ensures { result ≡ record {
          own = places.now.own + draws_by party step.now rows;
          following = places.now.following + draws_by (next party) step.now rows;
          received = parties (λ p. length (at p self.now.received));
        } }
    {
        let own_count = draw_count(party, step, rows);
        let following_count = draw_count(party.next(), step, rows);
        // Their contracts say that a tape has fewer than 2^64 draws.
        let _ = (self.own.len(), self.following.len());
        Places {
            own: places.own + own_count as usize,
            following: places.following + following_count as usize,
            received: Three {
                first: self.received.first.len(),
                second: self.received.second.len(),
                third: self.received.third.len(),
            },
        }
    }

    /// More words of a party.
    pub(crate) fn take(&mut self, source: Party, words: &[u64]) -> Result<(), AllocError>
        ensures took { OnOk result (self.new ≡ with_words self.old source words.now) }
        ensures kept { OnErr result (self.new ≡ self.old) }
    {
        match source {
            Party::First => self.received.first.extend_from_slice(words),
            Party::Second => self.received.second.extend_from_slice(words),
            Party::Third => self.received.third.extend_from_slice(words),
        }
    }

    /// Takes back all but so many words of a party.
    pub(crate) fn cut(&mut self, source: Party, count: usize)
        ensures { self.new ≡ record self.old { received = put source (take count (at source self.old.received)) self.old.received } }
    {
        match source {
            Party::First => self.received.first.truncate(count),
            Party::Second => self.received.second.truncate(count),
            Party::Third => self.received.third.truncate(count),
        }
    }
}
