//! The words on the links between three parties.
#![tactic(auto)]

ghost use Rattle.std.specs.Prelude.{◌≡◌, OnOk};
ghost use Rattle.lanes.specs.Three.{put};
ghost use Rattle.step_lists.specs.Draws.{joined, nothing};
ghost use Rattle.step_lists.specs.Phases.{no_words, message, behind_on, link};
ghost use Rattle.joint_machine.specs.Seen.{lists};

use lanes::{Party, Three};
use std::alloc::{AllocError, Global};
use std::marker::Model;

/// The words that each party has sent to each other one, in order. Those from a party to itself stay empty.
#[derive(Debug, Drop)]
pub(crate) struct Links {
    sources: Three<Three<Vec<u64>>>,
}

impl Model for Links {
    ghost use Rattle.lanes.specs.Three.{each};
    ghost use Rattle.step_lists.specs.Phases.{Links};
    ghost use Rattle.joint_machine.specs.Seen.{lists};

    ghost Value = { Links };

    ghost view = { λ l. each lists l.sources };
}

// A list for each party.
fn empty_lists(alloc: Global) -> Three<Vec<u64>>
    ensures { lists result ≡ nothing }
{
    Three {
        first: Vec::new(alloc),
        second: Vec::new(alloc),
        third: Vec::new(alloc),
    }
}

// More words behind the list for one party.
fn extend(targets: &mut Three<Vec<u64>>, target: Party, words: &[u64]) -> Result<(), AllocError>
    ensures { OnOk result (lists targets.new ≡ joined (lists targets.old) (put target words.now nothing)) }
{
    match target {
        Party::First => targets.first.extend_from_slice(words),
        Party::Second => targets.second.extend_from_slice(words),
        Party::Third => targets.third.extend_from_slice(words),
    }
}

impl Links {
    /// Links with no words.
    pub(crate) fn new(alloc: Global) -> Links
        ensures { result ≡ no_words }
    {
        Links {
            sources: Three {
                first: empty_lists(alloc),
                second: empty_lists(alloc),
                third: empty_lists(alloc),
            },
        }
    }

    /// The words from one party to another one.
    pub(crate) fn between(&self, source: Party, target: Party) -> &Vec<u64>
        ensures { result.now.items ≡ link source target self.now }
    {
        self.sources.at(source).at(target)
    }

    /// More words from one party to another one.
    pub(crate) fn send(
        &mut self,
        source: Party,
        target: Party,
        words: &[u64],
    ) -> Result<(), AllocError>
        ensures { OnOk result (self.new ≡ behind_on self.old (message source target words.now)) }
    {
        match source {
            Party::First => extend(&mut self.sources.first, target, words),
            Party::Second => extend(&mut self.sources.second, target, words),
            Party::Third => extend(&mut self.sources.third, target, words),
        }
    }
}
