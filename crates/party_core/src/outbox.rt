//! What a party sends.
#![tactic(auto)]

ghost use Rattle.std.specs.Prelude.{◌≡◌, ◌++◌, [], IfOk, OnErr, OnOk, take};
ghost use Rattle.lanes.specs.Party.{before, next};
ghost use Rattle.lanes.specs.Three.{put};
ghost use Rattle.step_lists.specs.Draws.{nothing};
ghost use Rattle.step_lists.specs.Part.{to_others};
ghost use Rattle.party_core.specs.Calls.{posted};
ghost use Rattle.party_core.specs.Doing.{posted_of};

use crate::messages::same_party;
use lanes::Party;
use std::alloc::{AllocError, Global};

/// What a party sends, by the party that is to get it.
#[derive(Debug, Drop)]
pub struct Outbox {
    /// To the party after it.
    pub next: Vec<u64>,
    /// To the party before it.
    pub previous: Vec<u64>,
}

impl Outbox {
    /// Nothing.
    pub(crate) fn empty(alloc: Global) -> Outbox
        ensures empty { posted result ≡ record { next = []; previous = [] } }
        ensures nothing { (v : Party) → posted result ≡ posted_of v nothing }
    {
        Outbox {
            next: Vec::new(alloc),
            previous: Vec::new(alloc),
        }
    }

    /// Words to the party before.
    pub(crate) fn to_previous(alloc: Global, words: Vec<u64>) -> Outbox
        ensures { (v : Party) → posted result ≡ posted_of v (put (before v) words.items nothing) }
    {
        Outbox {
            next: Vec::new(alloc),
            previous: words,
        }
    }

    /// Words from a party to another one; nothing where they are one.
    pub(crate) fn to(alloc: Global, party: Party, target: Party, words: Vec<u64>) -> Outbox
        ensures { posted result ≡ posted_of party (put target words.items nothing) }
    {
        let nothing = Vec::new(alloc);
        if same_party(target, party.next()) {
            Outbox {
                next: words,
                previous: nothing,
            }
        } else if same_party(target, party.before()) {
            Outbox {
                next: nothing,
                previous: words,
            }
        } else {
            Outbox::empty(alloc)
        }
    }

    /// Words to both other parties.
    pub(crate) fn to_others(alloc: Global, words: Vec<u64>) -> Result<Outbox, AllocError>
        ensures { IfOk result (λ out. (v : Party) → posted out ≡ posted_of v (to_others v words.items)) }
    {
        Ok(Outbox {
            next: Vec::from_slice(alloc, &words)?,
            previous: words,
        })
    }

    /// Adds what lies in another one.
    pub(crate) fn post(&mut self, more: &Outbox) -> Result<(), AllocError>
        ensures posted { OnOk result (posted self.new ≡ record { next = self.old.next.items ++ more.now.next.items; previous = self.old.previous.items ++ more.now.previous.items }) }
        ensures kept { OnErr result (posted self.new ≡ posted self.old) }
    {
        self.previous.reserve(more.previous.len())?;
        self.next.extend_from_slice(&more.next)?;
        self.previous.extend_from_slice(&more.previous).unwrap();
        Ok(())
    }

    /// Takes back all but so many words.
    pub(crate) fn cut(&mut self, next: usize, previous: usize)
        ensures { posted self.new ≡ record { next = take next self.old.next.items; previous = take previous self.old.previous.items } }
    {
        self.next.truncate(next);
        self.previous.truncate(previous);
    }
}
