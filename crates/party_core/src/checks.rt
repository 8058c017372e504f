//! Whether slots and tapes are what a list needs of a party.
#![tactic(auto)]

ghost use Rattle.std.specs.Prelude.{◌≡◌, ◌<◌, ◌^◌, IfErr, IfSome, IsNone, IsTrue, OnOk, Some, length, map, slice_get, slice_index_or, []};
ghost use Rattle.std.specs.List.{AllByRecursion};
ghost use Rattle.lanes.specs.Three.{at};
ghost use Rattle.lanes.specs.Party.{next};
ghost use Rattle.lanes.specs.Word.{AreWords};
ghost use Rattle.tapes.specs.Needs.{FitsNeeds};
ghost use Rattle.step_lists.specs.Schedule.{lists_of};
ghost use Rattle.step_lists.specs.Shapes.{word_lists};
ghost use Rattle.party_core.specs.Calls.{IsFirstMisfit, IsSlotsFault, IsUnfit, IsTapesFault, is_of};

use crate::faults::CoreFault;
use lanes::Party;
use tapes::{Needs, Schedule, Tape};

// How many words there are; each is below 2^64.
fn count(words: &[u64]) -> usize
    ensures value { result ≡ length words.now }
    ensures below { AreWords words.now }
{
    words.len()
}

// Whether a slot has a length.
fn has_length(slots: &Vec<Vec<u64>>, slot: usize, length: u32) -> bool
    ensures value { result ≡ is_of length (slice_get (word_lists slots.now) slot) }
    ensures below { IsTrue result → AreWords (slice_index_or (word_lists slots.now) slot []) }
{
    match slots.get(slot) {
        Some(words) => count(words) == length as usize,
        None => false,
    }
}

// The first slot that hasn't its length.
fn first_misfit(lengths: &[u32], slots: &Vec<Vec<u64>>) -> Option<u32>
    requires { length lengths.now < 2 ^ 32 }
    ensures fits { IsNone result → map length (word_lists slots.now) ≡ lengths.now }
    ensures below { IsNone result → AllByRecursion AreWords (word_lists slots.now) }
    ensures misfit { IfSome result (λ s. IsFirstMisfit lengths.now (word_lists slots.now) s) }
{
    for slot in 0..lengths.len() {
        if !has_length(slots, slot, lengths[slot]) {
            return Some(slot as u32);
        }
    }
    if slots.len() > lengths.len() {
        return Some(lengths.len() as u32);
    }
    None
}

/// Whether slots have these lengths.
pub(crate) fn check_slots(lengths: &[u32], slots: &Vec<Vec<u64>>) -> Result<(), CoreFault>
    requires { length lengths.now < 2 ^ 32 }
    ensures fits { OnOk result (map length (word_lists slots.now) ≡ lengths.now) }
    ensures below { OnOk result (AllByRecursion AreWords (word_lists slots.now)) }
    ensures fault { IfErr result (λ fault. IsSlotsFault lengths.now (word_lists slots.now) fault) }
{
    match first_misfit(lengths, slots) {
        Some(slot) => Err(CoreFault::SlotLength { slot }),
        None => Ok(()),
    }
}

// Whether two tapes have the draws that are needed of them, by their numbers, the lower one first.
fn check_both(
    low: u8,
    low_needs: &Needs,
    low_tape: &Tape,
    high: u8,
    high_needs: &Needs,
    high_tape: &Tape,
) -> Result<(), CoreFault>
    ensures low { OnOk result (FitsNeeds low_needs.now low_tape.now) }
    ensures high { OnOk result (FitsNeeds high_needs.now high_tape.now) }
    ensures fault { IfErr result (λ fault. IsUnfit low low_needs.now low_tape.now high high_needs.now high_tape.now fault) }
{
    if let Some(draw) = low_tape.first_unfit(low_needs) {
        return Err(CoreFault::Unfit { tape: low, draw });
    }
    if let Some(draw) = high_tape.first_unfit(high_needs) {
        return Err(CoreFault::Unfit { tape: high, draw });
    }
    Ok(())
}

/// Whether a party's two tapes have the draws that are needed of them, the lower one first.
pub(crate) fn check_tapes(
    schedule: &Schedule,
    party: Party,
    own: &Tape,
    following: &Tape,
) -> Result<(), CoreFault>
    ensures own { OnOk result (FitsNeeds (at party (lists_of schedule.now)) own.now) }
    ensures following { OnOk result (FitsNeeds (at (next party) (lists_of schedule.now)) following.now) }
    ensures fault { IfErr result (λ fault. IsTapesFault party (lists_of schedule.now) own.now following.now fault) }
{
    match party {
        Party::First => check_both(1, &schedule.first, own, 2, &schedule.second, following),
        Party::Second => check_both(2, &schedule.second, own, 3, &schedule.third, following),
        Party::Third => check_both(1, &schedule.first, following, 3, &schedule.third, own),
    }
}
