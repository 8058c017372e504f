//! How the draws of a tape change.

ghost use Rattle.std.specs.Prelude.{◌≡◌, ◌≤◌, ◌-◌, ◌++◌, [], IfOk, OnOk, length, take, drop, slice_get};
ghost use Rattle.step_lists.specs.Twin.{changed};
ghost use Rattle.twin.specs.Changing.{xored};

use std::alloc::{AllocError, Global};
use tapes::{LentDraw, Order, Tape};

// A word xored with the word at a place, if there is one.
fn xor_at(word: u64, words: &[u64], place: usize) -> u64
    ensures { result ≡ xored word (slice_get words.now place) }
{
    match words.get(place) {
        Some(change) => word ^ *change,
        None => word,
    }
}

/// The draws from one place of a tape to another one, behind those of a second tape: the words xored with these, one after the
/// other, and the order replaced.
pub(crate) fn push_changed(
    alloc: Global,
    tape: &Tape,
    from: usize,
    to: usize,
    order: &Order,
    words: &[u64],
    made: &mut Tape,
) -> Result<(), AllocError>
    requires from { from ≤ to }
    requires to { to ≤ length tape.now }
    ensures { OnOk result (made.new ≡ made.old ++ changed order.now words.now (take (to - from) (drop from tape.now))) }
{
    let mut used = 0;
    for place in from..to {
        match tape.draw(place) {
            Some(LentDraw::Word(word)) => {
                made.push_word(xor_at(word, words, used))?;
                used += 1;
            }
            Some(LentDraw::Order(_)) => made.push_order(order.copy(alloc)?)?,
            None => {}
        }
    }
    Ok(())
}

/// The draws from a place of a tape on, behind those of a second tape.
pub(crate) fn push_kept(
    alloc: Global,
    tape: &Tape,
    from: usize,
    made: &mut Tape,
) -> Result<(), AllocError>
    ensures { OnOk result (made.new ≡ made.old ++ drop from tape.now) }
{
    for place in from..tape.len() {
        match tape.draw(place) {
            Some(LentDraw::Word(word)) => made.push_word(word)?,
            Some(LentDraw::Order(order)) => made.push_order(order.copy(alloc)?)?,
            None => {}
        }
    }
    Ok(())
}

/// What the unseen draws of a step become: the words xored with these, and the order replaced by this one.
#[derive(Drop)]
pub(crate) struct Change {
    pub(crate) words: Vec<u64>,
    pub(crate) order: Order,
}

impl Change {
    /// Nothing is changed where a step draws no order.
    pub(crate) fn none(alloc: Global) -> Result<Change, AllocError>
        ensures { IfOk result (λ change. (change.words.items ≡ []) × (change.order ≡ [])) }
    {
        Change::of_words(alloc, Vec::new(alloc))
    }

    /// The words are changed alone, in a step that draws no order.
    pub(crate) fn of_words(alloc: Global, words: Vec<u64>) -> Result<Change, AllocError>
        ensures { IfOk result (λ change. (change.words.items ≡ words.items) × (change.order ≡ [])) }
    {
        let order = Order::identity(alloc, 0)?;
        Ok(Change { words, order })
    }
}
