//! One move of one of three cores, and the words on the links between them.
#![tactic(auto)]

ghost use Rattle.std.specs.Prelude.{◌≡◌, [], OnOk, OnErr, IfErr};
ghost use Rattle.lanes.specs.Three.{at, put};
ghost use Rattle.step_lists.specs.Layout.{party_of};
ghost use Rattle.step_lists.specs.Phases.{link, no_words};
ghost use Rattle.party_core.specs.declared.want.Want.TheVariants.{Turn};
ghost use Rattle.party_core.specs.Calls.{IsTakeFault, IsWanted, wanted_from};
ghost use Rattle.party_core.specs.CoreView.{turned_on, took};
ghost use Rattle.party_core.specs.Core.{breaks_order, turn_sends, want_of};
ghost use Rattle.trio.specs.Held.{is_end, links_of};
ghost use Rattle.trio.specs.Running.{sent_more};

use lanes::{Party, Three};
use party_core::{Core, Outbox, TakeFault, Want};
use std::alloc::{AllocError, Global};
use step_lists::Task;

/// The party of a number; one that isn't 1 or 2 is taken as the third.
pub(crate) fn party_of(number: u8) -> Party
    ensures { result ≡ party_of number }
{
    match number {
        1 => Party::First,
        2 => Party::Second,
        _ => Party::Third,
    }
}

// No words sent.
fn no_outbox(alloc: Global) -> Outbox
    ensures next { result.next.items ≡ [] }
    ensures previous { result.previous.items ≡ [] }
{
    Outbox {
        next: Vec::new(alloc),
        previous: Vec::new(alloc),
    }
}

/// No words on any link.
pub(crate) fn no_outboxes(alloc: Global) -> Three<Outbox>
    ensures { links_of result ≡ no_words }
{
    Three {
        first: no_outbox(alloc),
        second: no_outbox(alloc),
        third: no_outbox(alloc),
    }
}

/// The words that a party has sent to another one; none to itself.
pub(crate) fn between(sent: &Three<Outbox>, source: Party, target: Party) -> &[u64]
    ensures { result.now ≡ link source target (links_of sent.now) }
{
    let outbox = sent.at(source);
    if target == source.next() {
        &outbox.next
    } else if target == source.before() {
        &outbox.previous
    } else {
        &[]
    }
}

/// Whether a core is at its end or stopped.
pub(crate) fn has_ended<T: Task>(core: &Core<'_, T>) -> bool
    ensures { result ≡ is_end (want_of T.answer core.now) }
{
    match core.want() {
        Want::Done => true,
        Want::Stopped { flag: _ } => true,
        Want::Turn => false,
        Want::Words {
            source: _,
            count: _,
        } => false,
    }
}

/// A turn of a party, whose words go on its links.
pub(crate) fn turn_at<T: Task>(
    cores: &mut Three<Core<'_, T>>,
    sent: &mut Three<Outbox>,
    party: Party,
) -> Result<(), AllocError>
    requires turn { want_of T.answer (at party cores.old) ≡ Turn }
    requires itself { (at party cores.old).party ≡ party }
    requires apart { at party (turn_sends T.answer (at party cores.old)) ≡ [] }
    ensures cores { OnOk result (cores.new ≡ put party (turned_on (at party cores.old)) cores.old) }
    ensures sent { OnOk result (links_of sent.new ≡ sent_more party (turn_sends T.answer (at party cores.old)) (links_of sent.old)) }
    ensures kept_cores { OnErr result (cores.new ≡ cores.old) }
    ensures kept_sent { OnErr result (links_of sent.new ≡ links_of sent.old) }
{
    match party {
        Party::First => cores.first.turn(&mut sent.first),
        Party::Second => cores.second.turn(&mut sent.second),
        Party::Third => cores.third.turn(&mut sent.third),
    }
}

/// Words that a party takes.
pub(crate) fn take_at<T: Task>(
    cores: &mut Three<Core<'_, T>>,
    party: Party,
    words: &[u64],
) -> Result<(), TakeFault>
    requires { IsWanted (want_of T.answer (at party cores.old)) words.now }
    ensures took { OnOk result (cores.new ≡ put party (took (at party cores.old) (wanted_from (want_of T.answer (at party cores.old))) words.now) cores.old) }
    ensures fault { IfErr result (λ fault. IsTakeFault (breaks_order (at party cores.old) (wanted_from (want_of T.answer (at party cores.old))) words.now) fault) }
    ensures kept { OnErr result (cores.new ≡ cores.old) }
{
    match party {
        Party::First => cores.first.take(words),
        Party::Second => cores.second.take(words),
        Party::Third => cores.third.take(words),
    }
}
