//! What a step opens to the viewer, in both worlds.

ghost use Rattle.std.specs.Prelude.{◌≡◌, ◌<◌, ℕ, IfOk, IfErr, OnOk, length, map, slice_index};
ghost use Rattle.lanes.specs.Three.{opened};
ghost use Rattle.step_lists.specs.Seen.{shown_of};
ghost use Rattle.joint_machine.specs.Ready.{HaveRows, IsMade};
ghost use Rattle.step_lists.specs.Machine.{shares};
ghost use Rattle.step_lists.specs.Shapes.{word_lists};
ghost use Rattle.step_lists.specs.Twin.{open_rows};
ghost use Rattle.twin.specs.Compared.{IsWordsFault};

use crate::fault::{Rows, TwinFault};
use crate::rows::{rows_of_columns, rows_of_words};
use joint_machine::{Machine, open};
use std::alloc::{AllocError, Global};

/// These lists are opened to the viewer at a step.
pub(crate) fn not_aligned(step: u64, first: Vec<Vec<u64>>, second: Vec<Vec<u64>>) -> TwinFault
    ensures { result ≡ TwinFault.NotAligned step (word_lists first) (word_lists second) }
{
    TwinFault::NotAligned {
        step,
        first: Rows::new(first),
        second: Rows::new(second),
    }
}

/// Words that are told or flagged have to be the same in both worlds.
pub(crate) fn compare_words(
    alloc: Global,
    step: u64,
    words: &[u64],
    others: &[u64],
) -> Result<(), TwinFault>
    ensures same { OnOk result (words.now ≡ others.now) }
    ensures fault { IfErr result (λ fault. IsWordsFault step words.now others.now fault) }
{
    if words == others {
        return Ok(());
    }
    let first = rows_of_words(alloc, words)?;
    let second = rows_of_words(alloc, others)?;
    Err(not_aligned(step, first, second))
}

// What the shown ones of some registers stand for.
fn open_columns(
    alloc: Global,
    machine: &Machine,
    rows: usize,
    moved: &[u32],
    shown: &[u32],
) -> Result<Vec<Vec<u64>>, AllocError>
    requires made { (k : ℕ) → k < length moved.now → IsMade machine.now (slice_index moved.now k) }
    requires rows { HaveRows rows (map (shares machine.now) moved.now) }
    requires shown { (k : ℕ) → k < length shown.now → slice_index shown.now k < length moved.now }
    ensures { IfOk result (λ columns. word_lists columns ≡ shown_of (map (λ r. opened (shares machine.now r)) moved.now) shown.now) }
{
    let mut columns = Vec::with_capacity(alloc, shown.len())?;
    for place in shown {
        columns.push(open(alloc, machine.register(moved[*place as usize]))?)?;
    }
    Ok(columns)
}

/// The rows over the shown ones of some registers, opened.
pub(crate) fn open_rows(
    alloc: Global,
    machine: &Machine,
    rows: usize,
    moved: &[u32],
    shown: &[u32],
) -> Result<Vec<Vec<u64>>, AllocError>
    requires made { (k : ℕ) → k < length moved.now → IsMade machine.now (slice_index moved.now k) }
    requires rows { HaveRows rows (map (shares machine.now) moved.now) }
    requires shown { (k : ℕ) → k < length shown.now → slice_index shown.now k < length moved.now }
    ensures rows { IfOk result (λ made. word_lists made ≡ open_rows machine.now rows moved.now shown.now) }
    ensures count { IfOk result (λ made. length made.items ≡ rows) }
{
    let columns = open_columns(alloc, machine, rows, moved, shown)?;
    rows_of_columns(alloc, &columns, rows)
}
