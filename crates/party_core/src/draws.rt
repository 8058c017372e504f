//! The draws of one step on one tape.
#![tactic(auto)]

ghost use Rattle.std.specs.Prelude.{◌≡◌, ◌+◌, ◌≤◌, IfOk, drop, length, take};
ghost use Rattle.step_lists.specs.Draws.{order_in, words_in};
ghost use Rattle.tapes.specs.Order.{inverse_of};

use std::alloc::{AllocError, Global};
use std::marker::Model;
use tapes::{Order, Tape};

/// So many draws of a tape from a place on, seen as the list of them; their words, and their first order where they have
/// one.
#[derive(Debug, Drop)]
pub(crate) struct Draws<'a> {
    tape: &'a Tape,
    place: usize,
    count: usize,
    words: Vec<u64>,
    order: Option<&'a Order>,
}

impl<'a> Model for Draws<'a> {
    ghost use Rattle.std.specs.Prelude.{List, take, drop};
    ghost use Rattle.std.specs.Option.{option_copied};
    ghost use Rattle.tapes.specs.declared.draw.Draw.{Draw};
    ghost use Rattle.party_core.specs.Read.{AreRead, order_seen};

    ghost Value = { List Draw };

    ghost view = { λ d. take d.count (drop d.place d.tape.now) };

    ghost invariant = { λ d. AreRead (take d.count (drop d.place d.tape.now)) d.words.items (order_seen (option_copied d.order)) };
}

impl<'a> Draws<'a> {
    /// Reads so many draws from a place on.
    pub(crate) fn read(
        alloc: Global,
        tape: &'a Tape,
        place: usize,
        count: usize,
    ) -> Result<Draws<'a>, AllocError>
        requires { place + count ≤ length tape.now }
        ensures { IfOk result (λ draws. draws ≡ take count (drop place tape.now)) }
    {
        let mut cursor = tape.cursor_at(place);
        let mut words = Vec::with_capacity(alloc, count)?;
        let mut order = None;
        for _ in 0..count {
            match cursor.next_word() {
                Some(word) => words.push(word)?,
                None => order = order.or(cursor.next_order()),
            }
        }
        Ok(Draws {
            tape,
            place,
            count,
            words,
            order,
        })
    }

    /// Their words.
    pub(crate) fn words(&self) -> &[u64]
        ensures { result.now ≡ words_in self.now }
    {
        self.words.as_slice()
    }

    /// Their order, as words.
    pub(crate) fn order(&self, alloc: Global) -> Result<Vec<u64>, AllocError>
        ensures { IfOk result (λ made. made.items ≡ order_in self.now) }
    {
        match self.order {
            Some(order) => words_of(alloc, order),
            None => Ok(Vec::new(alloc)),
        }
    }

    /// The inverse of their order, as words.
    pub(crate) fn inverse(&self, alloc: Global) -> Result<Vec<u64>, AllocError>
        ensures { IfOk result (λ made. made.items ≡ inverse_of (order_in self.now)) }
    {
        match self.order {
            Some(order) => words_of(alloc, &order.inverse(alloc)?),
            None => Ok(Vec::new(alloc)),
        }
    }
}

// An order as words.
fn words_of(alloc: Global, order: &Order) -> Result<Vec<u64>, AllocError>
    ensures { IfOk result (λ words. words.items ≡ order.now) }
{
    let places = order.places();
    let mut words = Vec::with_capacity(alloc, places.len())?;
    for place in places {
        words.push(*place as u64)?;
    }
    Ok(words)
}
