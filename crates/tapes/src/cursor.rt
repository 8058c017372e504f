ghost use Rattle.std.specs.Prelude.{◌≡◌, is_some, drop};
ghost use Rattle.std.specs.Option.{option_copied};
ghost use Rattle.tapes.specs.Laid.{draws_from, StandsAt};
ghost use Rattle.tapes.specs.Reading.{word_at, order_at, words_at, leading_words, moved_past, moved_by};

use crate::order::Order;
use crate::placed::{PlacedOrder, words_ready};
use std::marker::Model;

/// A reader of a tape, seen as the list of its draws and the place of the next one.
#[derive(Drop)]
pub struct Cursor<'a> {
    words: &'a [u64],
    orders: &'a [PlacedOrder],
    place: usize,
    // How many orders stand before the place.
    passed: usize,
}

impl<'a> Model for Cursor<'a> {
    ghost use Rattle.tapes.specs.Reading.{Reading};
    ghost use Rattle.tapes.specs.Laid.{draws_from, StandsAt};

    ghost Value = { Reading };

    ghost view = { λ c. record { draws = draws_from 0 c.words.now c.orders.now; place = c.place } };

    ghost invariant = { λ c. StandsAt c.words.now c.orders.now c.place c.passed };
}

impl<'a> Cursor<'a> {
    pub(crate) fn new(
        words: &'a [u64],
        orders: &'a [PlacedOrder],
        place: usize,
        passed: usize,
    ) -> Cursor<'a>
        requires { StandsAt words.now orders.now place passed }
        ensures { result ≡ record { draws = draws_from 0 words.now orders.now; place = place } }
    {
        Cursor {
            words,
            orders,
            place,
            passed,
        }
    }

    /// The next draw, if it is a word; then the reader moves on by one draw. It stays where the
    /// next draw is an order or there is none.
    pub fn next_word(&mut self) -> Option<u64>
        ensures value { result ≡ word_at self.old }
        ensures moves { self.new ≡ moved_past self.old (is_some result) }
    {
        match self.next_words(1) {
            Some(words) => words.first().copied(),
            None => None,
        }
    }

    /// The next `count` draws, if all of them are words; then the reader moves on by as many. It
    /// stays where one of them is an order or there are fewer. The words are lent as they lie in
    /// the tape.
    pub fn next_words(&mut self, count: usize) -> Option<&'a [u64]>
        ensures value { option_copied result ≡ words_at self.old count }
        ensures moves { self.new ≡ moved_by self.old count (is_some result) }
    {
        if words_ready(self.words, self.orders, self.place, self.passed) < count {
            return None;
        }
        let (_, behind) = self.words.split_at(self.place - self.passed);
        let (words, _) = behind.split_at(count);
        self.place += count;
        Some(words)
    }

    /// The next draw, if it is an order; then the reader moves on by one draw. It stays where the
    /// next draw is a word or there is none.
    pub fn next_order(&mut self) -> Option<&'a Order>
        ensures value { option_copied result ≡ order_at self.old }
        ensures moves { self.new ≡ moved_past self.old (is_some result) }
    {
        if self.passed == self.orders.len() {
            return None;
        }
        let next = &self.orders[self.passed];
        if next.place != self.place {
            return None;
        }
        self.place += 1;
        self.passed += 1;
        Some(&next.order)
    }

    /// How many words come next, before an order or the end.
    pub fn words_ready(&self) -> usize
        ensures { result ≡ leading_words (drop self.now.place self.now.draws) }
    {
        words_ready(self.words, self.orders, self.place, self.passed)
    }

    /// The number of the next draw.
    pub fn place(&self) -> usize
        ensures { result ≡ self.now.place }
    {
        self.place
    }
}
