//! How much of what is given to a party its steps use.
#![tactic(auto)]

ghost use Rattle.std.specs.Prelude.{◌≡◌, ◌<◌, ◌^◌};
ghost use Rattle.party_core.specs.Doing.{draws_by, steer_draws};

use crate::messages::same_party;
use crate::stages::party_of;
use lanes::{Party, Three};
use step_lists::{Step, Task};

/// How many draws of both tapes, and words of each party, the steps that are done have used.
#[derive(Debug, Drop)]
pub(crate) struct Places {
    pub(crate) own: usize,
    pub(crate) following: usize,
    pub(crate) received: Three<usize>,
}

impl Places {
    /// Before the first step.
    pub(crate) fn start() -> Places
        ensures { result ≡ record { own = 0; following = 0; received = record { first = 0; second = 0; third = 0 } } }
    {
        Places {
            own: 0,
            following: 0,
            received: Three {
                first: 0,
                second: 0,
                third: 0,
            },
        }
    }
}

// How many draws of a tape a Steer takes, by how many words it moves.
fn steer_draws(tape: Party, by: Party, words: u128) -> u128
    requires { words < 2 ^ 96 }
    ensures { result ≡ steer_draws tape by words }
{
    if same_party(tape, by) {
        words
    } else if same_party(tape, by.next()) {
        words + 1
    } else {
        words + words
    }
}

/// How many draws of a tape a step takes that is about so many words.
pub(crate) fn draw_count<T: Task>(tape: Party, step: &Step<T>, rows: u32) -> u128
    ensures { result ≡ draws_by tape step.now rows }
{
    let rows = rows as u128;
    match step {
        Step::And { left: _, right: _ } => rows,
        Step::Share { party, slot: _ } => {
            let by = party_of(*party);
            if same_party(tape, by) || same_party(tape, by.next()) {
                rows
            } else {
                0
            }
        }
        Step::Reveal {
            to: _,
            moved,
            shown: _,
        } => {
            let words = moved.len() as u128 * rows;
            words + words + 1
        }
        Step::Steer { by, slot: _, moved } => {
            steer_draws(tape, party_of(*by), moved.len() as u128 * rows)
        }
        _ => 0,
    }
}
