//! The stages of a step, by the list's layout alone.
#![tactic(auto)]

ghost use Rattle.std.specs.Prelude.{◌≡◌, ℕ, ◌==◌, ◌&&◌, ◌<◌, ◌^◌, ◌∷◌, [], Some, false, IsTrue, length, slice_get, slice_index_or};
ghost use Rattle.lanes.specs.declared.party.Party.{Party};
ghost use Rattle.step_lists.specs.Layout.{party_of, length_of, words_in_slot, rows_moved};
ghost use Rattle.step_lists.specs.Part.{phase_takes, takes_from, takes_nothing, when};
ghost use Rattle.step_lists.specs.Rules.{is_register, is_slot, move_together};
ghost use Rattle.step_lists.specs.Seen.{same_party};
ghost use Rattle.party_core.specs.Calls.{wanted_from};
ghost use Rattle.party_core.specs.Core.{words_or_turn};
ghost use Rattle.party_core.specs.Holding.{rows_of, layout_at, takes_by, takes_in_reveal, takes_in_steer};
ghost use Rattle.party_core.specs.Stages.{takes_none, waits_at};

use crate::messages::same_party;
use crate::want::Want;
use lanes::{Party, Three};
use step_lists::laws::prefix_keeps_layout;
use step_lists::{Shape, Step, StepList, Task};

/// The party of a number; one that isn't 1 or 2 is taken as the third.
pub(crate) fn party_of(number: u8) -> Party
    ensures { result ≡ party_of number }
{
    match number {
        1 => Party::First,
        2 => Party::Second,
        _ => Party::Third,
    }
}

// The length of a register that was made before the step of a place; later steps leave it.
fn register_rows<T: Task>(list: &StepList<T>, _place: usize, register: u32) -> u32
    requires { IsTrue (is_register (layout_at list.now _place) register) }
    ensures { result ≡ length_of (layout_at list.now _place) register }
{
    prefix_keeps_layout::<T>();
    list.length(register)
}

// How many words a slot has that was made before the step of a place.
fn slot_rows<T: Task>(list: &StepList<T>, _place: usize, party: u8, slot: u32) -> u32
    requires { IsTrue (is_slot (layout_at list.now _place) party slot) }
    ensures { result ≡ words_in_slot (layout_at list.now _place) (party_of party) slot }
{
    prefix_keeps_layout::<T>();
    match list.shape(party, slot) {
        Shape::Words(count) => count,
        Shape::OrderOf(count) => count,
    }
}

// The rows of registers that are moved together.
fn moved_rows<T: Task>(list: &StepList<T>, place: usize, moved: &[u32]) -> u32
    requires { IsTrue (move_together (layout_at list.now place) moved.now) }
    ensures { result ≡ rows_moved (layout_at list.now place) moved.now }
{
    match moved.first() {
        Some(register) => register_rows(list, place, *register),
        None => 0,
    }
}

/// How many words each register or slot has that the step of a place is about.
pub(crate) fn step_rows<T: Task>(list: &StepList<T>, place: usize, step: &Step<T>) -> u32
    requires { slice_get list.now.steps place ≡ Some step.now }
    ensures { result ≡ rows_of (layout_at list.now place) step.now }
{
    // Its contract says that the list is well-formed.
    let _ = list.steps();
    match step {
        Step::And { left, right: _ } => register_rows(list, place, *left),
        Step::Share { party, slot } => slot_rows(list, place, *party, *slot),
        Step::Reveal {
            to: _,
            moved,
            shown: _,
        } => moved_rows(list, place, moved.as_slice()),
        Step::Steer {
            by: _,
            slot: _,
            moved,
        } => moved_rows(list, place, moved.as_slice()),
        Step::Tell {
            source,
            target: _,
            slot,
        } => slot_rows(list, place, *source, *slot),
        Step::Flag { party: _, slot: _ } => 1,
        Step::Const { words: _ } => 0,
        Step::Lin { op: _ } => 0,
        Step::Work {
            party: _,
            task: _,
            takes: _,
            gives: _,
        } => 0,
    }
}

// No words of any party.
fn none() -> Three<u128>
    ensures { result ≡ takes_nothing }
{
    Three {
        first: 0,
        second: 0,
        third: 0,
    }
}

// Words of one party.
fn from(party: Party, count: u128) -> Three<u128>
    ensures { result ≡ takes_from party count }
{
    let mut counts = none();
    counts.put(party, count);
    counts
}

// Words of one party, where a test holds.
fn from_where(holds: bool, party: Party, count: u128) -> Three<u128>
    ensures { result ≡ when holds (takes_from party count) }
{
    if holds { from(party, count) } else { none() }
}

// So many words of a phase.
fn phase_takes(party: Party, j: Party, count: u128) -> Three<u128>
    ensures { result ≡ phase_takes party j count }
{
    if same_party(party, j) {
        from(j.before(), count)
    } else {
        from_where(same_party(party, j.before()), j, count)
    }
}

// What a party takes in a stage of a Reveal.
fn reveal_takes(party: Party, to: Party, words: u128, shown: u128, stage: usize) -> Three<u128>
    ensures { result ≡ slice_index_or (takes_in_reveal party to words shown) stage takes_nothing }
{
    match stage {
        0 => phase_takes(party, Party::First, words),
        1 => phase_takes(party, Party::Second, words),
        2 => phase_takes(party, Party::Third, words),
        3 => from_where(same_party(party, to), to.next(), shown),
        _ => none(),
    }
}

// What a party takes in a stage of a Steer.
fn steer_takes(party: Party, by: Party, words: u128, rows: u128, stage: usize) -> Three<u128>
    ensures { result ≡ slice_index_or (takes_in_steer party by words rows) stage takes_nothing }
{
    match stage {
        0 => from_where(same_party(party, by.before()), by, rows),
        1 => phase_takes(party, by.next(), words),
        2 => phase_takes(party, by, words),
        _ => none(),
    }
}

// What a party takes in a stage of a step that has one.
fn only_takes(takes: Three<u128>, stage: usize) -> Three<u128>
    ensures { result ≡ slice_index_or (takes ∷ []) stage takes_nothing }
{
    match stage {
        0 => takes,
        _ => none(),
    }
}

/// How many words of each party are taken in a stage of a step that is about so many words.
pub(crate) fn takes_at<T: Task>(
    party: Party,
    step: &Step<T>,
    rows: u32,
    stage: usize,
) -> Three<u128>
    ensures { result ≡ slice_index_or (takes_by party step.now rows) stage takes_nothing }
{
    let rows = rows as u128;
    match step {
        Step::And { left: _, right: _ } => only_takes(from(party.next(), rows), stage),
        Step::Share {
            party: source,
            slot: _,
        } => {
            let source = party_of(*source);
            only_takes(from_where(!same_party(party, source), source, rows), stage)
        }
        Step::Reveal { to, moved, shown } => reveal_takes(
            party,
            party_of(*to),
            moved.len() as u128 * rows,
            shown.len() as u128 * rows,
            stage,
        ),
        Step::Steer { by, slot: _, moved } => {
            let words = moved.len() as u128 * rows;
            steer_takes(party, party_of(*by), words, rows, stage)
        }
        Step::Tell {
            source,
            target,
            slot: _,
        } => {
            let target = party_of(*target);
            only_takes(
                from_where(same_party(party, target), party_of(*source), rows),
                stage,
            )
        }
        Step::Flag {
            party: source,
            slot: _,
        } => {
            let source = party_of(*source);
            only_takes(from_where(!same_party(party, source), source, 1), stage)
        }
        Step::Const { words: _ } => none(),
        Step::Lin { op: _ } => none(),
        Step::Work {
            party: _,
            task: _,
            takes: _,
            gives: _,
        } => none(),
    }
}

/// How many stages a step has.
pub(crate) fn stage_count<T: Task>(step: &Step<T>) -> usize
    ensures { (v : Party) (n : ℕ) → result ≡ length (takes_by v step.now n) }
{
    match step {
        Step::And { left: _, right: _ } => 1,
        Step::Share { party: _, slot: _ } => 1,
        Step::Reveal {
            to: _,
            moved: _,
            shown: _,
        } => 4,
        Step::Steer {
            by: _,
            slot: _,
            moved: _,
        } => 3,
        Step::Tell {
            source: _,
            target: _,
            slot: _,
        } => 1,
        Step::Flag { party: _, slot: _ } => 1,
        Step::Const { words: _ } => 0,
        Step::Lin { op: _ } => 0,
        Step::Work {
            party: _,
            task: _,
            takes: _,
            gives: _,
        } => 0,
    }
}

// Whether this is a stage of a number in which a party waits at once.
fn waits_in(stage: usize, at: usize, waits: bool) -> bool
    ensures { result ≡ ((stage == at) && waits) }
{
    stage == at && waits
}

/// Whether a party sends nothing in a stage and takes its words at once.
pub(crate) fn waits_at<T: Task>(party: Party, step: &Step<T>, stage: usize) -> bool
    ensures { result ≡ waits_at party step.now stage }
{
    match step {
        Step::And { left: _, right: _ } => false,
        Step::Share {
            party: source,
            slot: _,
        } => waits_in(stage, 0, !same_party(party, party_of(*source))),
        Step::Reveal {
            to,
            moved: _,
            shown: _,
        } => waits_in(stage, 3, same_party(party, party_of(*to))),
        Step::Steer {
            by,
            slot: _,
            moved: _,
        } => waits_in(stage, 0, same_party(party, party_of(*by).before())),
        Step::Tell {
            source: _,
            target,
            slot: _,
        } => waits_in(stage, 0, same_party(party, party_of(*target))),
        Step::Flag {
            party: source,
            slot: _,
        } => waits_in(stage, 0, !same_party(party, party_of(*source))),
        Step::Const { words: _ } => false,
        Step::Lin { op: _ } => false,
        Step::Work {
            party: _,
            task: _,
            takes: _,
            gives: _,
        } => false,
    }
}

/// The words of the one party of which any are taken, or a turn.
pub(crate) fn words_or_turn(takes: &Three<u128>) -> Want
    requires first { takes.now.first < 2 ^ 64 }
    requires second { takes.now.second < 2 ^ 64 }
    requires third { takes.now.third < 2 ^ 64 }
    ensures { result ≡ words_or_turn takes.now }
{
    if takes.first != 0 {
        Want::Words {
            source: 1,
            count: takes.first as usize,
        }
    } else if takes.second != 0 {
        Want::Words {
            source: 2,
            count: takes.second as usize,
        }
    } else if takes.third != 0 {
        Want::Words {
            source: 3,
            count: takes.third as usize,
        }
    } else {
        Want::Turn
    }
}

/// Whether no words are taken of any party.
pub(crate) fn takes_none(takes: &Three<u128>) -> bool
    ensures { result ≡ takes_none takes.now }
{
    takes.first == 0 && takes.second == 0 && takes.third == 0
}

/// The party of which words are taken, the first one where there are none.
pub(crate) fn party_taken(takes: &Three<u128>) -> Party
    ensures { result ≡ wanted_from (words_or_turn takes.now) }
{
    if takes.first != 0 {
        Party::First
    } else if takes.second != 0 {
        Party::Second
    } else if takes.third != 0 {
        Party::Third
    } else {
        Party::First
    }
}
