//! Whether words that came complete a private order that isn't one.
#![tactic(auto)]

ghost use Rattle.std.specs.Prelude.{◌≡◌, IfOk};
ghost use Rattle.lanes.specs.Three.{at};
ghost use Rattle.step_lists.specs.Layout.{Layout};
ghost use Rattle.step_lists.specs.Part.{Given, is_bad_order, is_order, takes_bad_order};
ghost use Rattle.party_core.specs.Doing.{slices};
ghost use Rattle.party_core.specs.Holding.{rows_of};

use crate::lists::cut;
use crate::messages::same_party;
use crate::stages::party_of;
use lanes::{Party, Three};
use std::alloc::{AllocError, Global};
use step_lists::{Step, Task};

// Whether each number below how many words there are stands among them.
fn is_order(alloc: Global, words: &[u64]) -> Result<bool, AllocError>
    ensures { IfOk result (λ order. order ≡ is_order words.now) }
{
    let mut seen = vec![in alloc; false; words.len()]?;
    for word in words {
        if *word < words.len() as u64 {
            seen[*word as usize] = true;
        }
    }
    Ok(seen.iter().all(|stands| *stands))
}

// Whether so many words came and are no order.
fn is_bad_order(alloc: Global, rows: usize, words: &[u64]) -> Result<bool, AllocError>
    ensures { IfOk result (λ bad. bad ≡ is_bad_order rows words.now) }
{
    if words.len() < rows {
        return Ok(false);
    }
    let (order, _) = cut(words, rows);
    Ok(!is_order(alloc, order)?)
}

/// Whether the words that came for a step, which is about so many words, complete a private order that isn't one.
pub(crate) fn takes_bad_order<T: Task>(
    alloc: Global,
    party: Party,
    step: &Step<T>,
    rows: u32,
    received: &Three<&[u64]>,
) -> Result<bool, AllocError>
    ensures { IfOk result (λ bad. (l : Layout) (g : Given) → rows_of l step.now ≡ rows → g.received ≡ slices received.now → bad ≡ takes_bad_order party l step.now g) }
{
    match step {
        Step::Steer {
            by,
            slot: _,
            moved: _,
        } => {
            let by = party_of(*by);
            if !same_party(party, by.before()) {
                return Ok(false);
            }
            is_bad_order(alloc, rows as usize, *received.at(by))
        }
        _ => Ok(false),
    }
}
