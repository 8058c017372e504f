//! The step Reveal at one party.
#![tactic(auto)]

ghost use Rattle.std.specs.Prelude.{◌≡◌, ℕ, List, ⊤, IfOk, OnErr, OnOk, slice_index_or};
ghost use Rattle.std.specs.List.{flat_map};
ghost use Rattle.lanes.specs.Lanes.{xors};
ghost use Rattle.step_lists.specs.declared.step.Step.TheVariants.{Reveal};
ghost use Rattle.step_lists.specs.Draws.{nothing};
ghost use Rattle.step_lists.specs.Layout.{Layout, rows_moved};
ghost use Rattle.step_lists.specs.Part.{no_pair, opened_at, part_first, part_moving, part_second, part_step, part_third, revealed_slots, stage_sends};
ghost use Rattle.step_lists.specs.Shapes.{word_lists};
ghost use Rattle.party_core.specs.Calls.{posted};
ghost use Rattle.party_core.specs.Doing.{posted_of};

use crate::lists::{cut, xored};
use crate::messages::same_party;
use crate::moving::Moving;
use crate::outbox::Outbox;
use crate::pairs::Pair;
use crate::portion::Portion;
use crate::stages::party_of;
use crate::state::State;
use lanes::Party;
use std::alloc::{AllocError, Global};

/// The moved registers of a step before its phases.
pub(crate) fn start<'a>(
    alloc: Global,
    state: &State,
    moved: &[u32],
    portion: &'a Portion<'_>,
) -> Result<Moving<'a>, AllocError>
    ensures { IfOk result (λ moving. moving ≡ part_moving state.now moved.now portion.now) }
{
    let pairs = state.copy_pairs(alloc, moved)?;
    Ok(Moving::new(pairs, portion))
}

// Behind the first party's phase.
fn behind_first<'a>(
    alloc: Global,
    party: Party,
    mut moving: Moving<'a>,
    portion: &Portion<'_>,
    rows: usize,
) -> Result<Moving<'a>, AllocError>
    ensures { IfOk result (λ new. new ≡ part_first party rows portion.now moving.entry) }
{
    moving.drawn_phase(alloc, party, Party::First, portion, rows)?;
    Ok(moving)
}

// Behind the second party's phase.
fn behind_second<'a>(
    alloc: Global,
    party: Party,
    moving: Moving<'a>,
    portion: &Portion<'_>,
    rows: usize,
) -> Result<Moving<'a>, AllocError>
    ensures { IfOk result (λ new. new ≡ part_second party rows portion.now moving.entry) }
{
    let mut moving = behind_first(alloc, party, moving, portion, rows)?;
    moving.drawn_phase(alloc, party, Party::Second, portion, rows)?;
    Ok(moving)
}

// Behind the third party's phase.
fn behind_third<'a>(
    alloc: Global,
    party: Party,
    moving: Moving<'a>,
    portion: &Portion<'_>,
    rows: usize,
) -> Result<Moving<'a>, AllocError>
    ensures { IfOk result (λ new. new ≡ part_third party rows portion.now moving.entry) }
{
    let mut moving = behind_second(alloc, party, moving, portion, rows)?;
    moving.drawn_phase(alloc, party, Party::Third, portion, rows)?;
    Ok(moving)
}

// The following party's shares of the shown registers, one behind the other.
fn shown_words(alloc: Global, pairs: &[Pair], shown: &[u32]) -> Result<Vec<u64>, AllocError>
    ensures { IfOk result (λ words. words.items ≡ flat_map (λ k. (slice_index_or pairs.now k no_pair).following) shown.now) }
{
    let mut words = Vec::new(alloc);
    for place in shown {
        if let Some(pair) = pairs.get(*place as usize) {
            words.extend_from_slice(pair.following())?;
        }
    }
    Ok(words)
}

/// What a party sends in a stage of a Reveal.
pub(crate) fn reveal_sends(
    alloc: Global,
    party: Party,
    to: u8,
    moved: &[u32],
    shown: &[u32],
    rows: usize,
    stage: usize,
    state: &State,
    portion: &Portion<'_>,
) -> Result<Outbox, AllocError>
    ensures { IfOk result (λ out. (l : Layout) → rows_moved l moved.now ≡ rows
        → posted out ≡ posted_of party (slice_index_or (stage_sends {T = ⊤} party l state.now (Reveal to moved.now shown.now) portion.now) stage nothing)) }
{
    let moving = start(alloc, state, moved, portion)?;
    match stage {
        0 => moving.drawn_sends(alloc, party, Party::First, portion, rows),
        1 => behind_first(alloc, party, moving, portion, rows)?.drawn_sends(
            alloc,
            party,
            Party::Second,
            portion,
            rows,
        ),
        2 => behind_second(alloc, party, moving, portion, rows)?.drawn_sends(
            alloc,
            party,
            Party::Third,
            portion,
            rows,
        ),
        3 if same_party(party, party_of(to).next()) => {
            let third = behind_third(alloc, party, moving, portion, rows)?;
            let words = shown_words(alloc, third.pairs(), shown)?;
            Ok(Outbox::to(alloc, party, party_of(to), words))
        }
        _ => Ok(Outbox::empty(alloc)),
    }
}

// What a shown register stands for: the two shares that a party holds, and the one that came.
fn opened_at(
    alloc: Global,
    party: Party,
    pair: &Pair,
    third: &[u64],
) -> Result<Vec<u64>, AllocError>
    ensures { IfOk result (λ words. words.items ≡ opened_at party pair.now third.now) }
{
    let (own, following) = (pair.own(), pair.following());
    match party {
        Party::First => xored_three(alloc, own, following, third),
        Party::Second => xored_three(alloc, third, own, following),
        Party::Third => xored_three(alloc, following, third, own),
    }
}

fn xored_three(
    alloc: Global,
    one: &[u64],
    two: &[u64],
    three: &[u64],
) -> Result<Vec<u64>, AllocError>
    ensures { IfOk result (λ words. words.items ≡ xors (xors one.now two.now) three.now) }
{
    let both = xored(alloc, one, two)?;
    xored(alloc, &both, three)
}

// The slots that a party gets, of the shares that came last.
fn shown_slots(
    alloc: Global,
    party: Party,
    rows: usize,
    moving: &Moving<'_>,
    shown: &[u32],
    got: &[u64],
) -> Result<Vec<Vec<u64>>, AllocError>
    ensures { IfOk result (λ slots. word_lists slots ≡ revealed_slots party rows moving.now shown.now got.now) }
{
    let none = Pair::empty(alloc);
    let mut slots = Vec::with_capacity(alloc, shown.len())?;
    let mut got = got;
    for place in shown {
        let (third, left) = cut(got, rows);
        let pair = moving.pairs().get(*place as usize).unwrap_or(&none);
        slots.push(opened_at(alloc, party, pair, third)?)?;
        got = left;
    }
    Ok(slots)
}

impl State {
    /// Carries out a Reveal.
    pub(crate) fn push_reveal(
        &mut self,
        alloc: Global,
        party: Party,
        to: u8,
        moved: &[u32],
        shown: &[u32],
        rows: usize,
        portion: &Portion<'_>,
    ) -> Result<(), AllocError>
        ensures done { OnOk result ((answer : ⊤ → List (List ℕ) → List (List ℕ)) (l : Layout) → rows_moved l moved.now ≡ rows
            → self.new ≡ part_step answer party l self.old (Reveal to moved.now shown.now) portion.now) }
        ensures kept { OnErr result (self.new ≡ self.old) }
    {
        let moving = start(alloc, self, moved, portion)?;
        let third = behind_third(alloc, party, moving, portion, rows)?;
        if same_party(party, party_of(to)) {
            let got = third.received(party.next());
            let slots = shown_slots(alloc, party, rows, &third, shown, got)?;
            self.push_both(third.into_pairs(), slots)
        } else {
            self.push_pairs(third.into_pairs())
        }
    }
}
