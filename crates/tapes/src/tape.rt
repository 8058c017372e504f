ghost use Rattle.std.specs.Prelude.{◌≡◌, ◌↔◌, ◌+◌, ◌<◌, ◌≤◌, ◌^◌, ◌++◌, ◌∷◌, [], IsTrue, IfOk, OnOk, OnErr, length, slice_get};
ghost use Rattle.std.specs.Option.{option_map};
ghost use Rattle.tapes.specs.declared.draw.Draw.TheVariants.{Word, Order as OrderDraw};
ghost use Rattle.tapes.specs.Lent.{lent};

use crate::cursor::Cursor;
use crate::draw::{Draw, LentDraw};
use crate::order::Order;
use crate::placed::{PlacedOrder, orders_before};
use std::alloc::{AllocError, AllocFailed, Global};
use std::marker::Model;

/// Recorded random choices of a run, seen as the list of its draws. Its words lie side by side, and
/// each order with the number of its draw, so a word takes 8 bytes.
#[derive(Debug, Drop)]
pub struct Tape {
    words: Vec<u64>,
    orders: Vec<PlacedOrder>,
}

impl Model for Tape {
    ghost use Rattle.std.specs.Prelude.{List};
    ghost use Rattle.tapes.specs.declared.draw.Draw.{Draw};
    ghost use Rattle.tapes.specs.Laid.{draws_from, IsLaid};

    ghost Value = { List Draw };

    ghost view = { λ t. draws_from 0 t.words.items t.orders.items };

    ghost invariant = { λ t. IsLaid t.words.items t.orders.items };
}

/// The tapes of a run: the first is held by parties 1 and 3, the second by 2 and 1, the third by
/// 3 and 2.
#[derive(Debug, Drop)]
pub struct Tapes {
    pub first: Tape,
    pub second: Tape,
    pub third: Tape,
}

impl Tape {
    /// The tape of these draws.
    pub fn new(draws: Vec<Draw>) -> Result<Tape, AllocError>
        ensures { IfOk result (λ tape. tape ≡ draws.items) }
    {
        let mut tape = Tape::with_room(*draws.allocator(), count_words(&draws))?;
        for draw in draws {
            match draw {
                Draw::Word(word) => tape.push_word(word)?,
                Draw::Order(order) => tape.push_order(order)?,
            }
        }
        Ok(tape)
    }

    /// A tape without a draw, and room for so many words.
    pub fn with_room(alloc: Global, words: usize) -> Result<Tape, AllocError>
        ensures { IfOk result (λ tape. tape ≡ []) }
    {
        let words = Vec::with_capacity(alloc, words)?;
        let orders = Vec::new(alloc);
        Ok(Tape { words, orders })
    }

    /// One word behind the other draws.
    pub fn push_word(&mut self, word: u64) -> Result<(), AllocError>
        ensures pushed { OnOk result (self.new ≡ self.old ++ Word word ∷ []) }
        ensures err { OnErr result (self.new ≡ self.old) }
    {
        self.words.push(word)?;
        Ok(())
    }

    /// One order behind the other draws.
    pub fn push_order(&mut self, order: Order) -> Result<(), AllocError>
        ensures pushed { OnOk result (self.new ≡ self.old ++ OrderDraw order ∷ []) }
        ensures err { OnErr result (self.new ≡ self.old) }
    {
        let place = self.words.len() + self.orders.len();
        self.orders.push(PlacedOrder { place, order })?;
        Ok(())
    }

    /// An equal tape in memory of its own.
    pub fn copy(&self, alloc: Global) -> Result<Tape, AllocError>
        ensures { IfOk result (λ tape. tape ≡ self.now) }
    {
        let words = Vec::from_slice(alloc, &self.words)?;
        let mut orders = Vec::with_capacity(alloc, self.orders.len())?;
        for placed in &self.orders {
            let order = placed.order.copy(alloc)?;
            orders.push(PlacedOrder {
                place: placed.place,
                order,
            })?;
        }
        Ok(Tape { words, orders })
    }

    /// The draw of an index, `None` exactly where there is none.
    pub fn draw(&self, index: usize) -> Option<LentDraw<'_>>
        ensures { option_map lent result ≡ slice_get self.now index }
    {
        if index >= self.len() {
            return None;
        }
        let mut cursor = self.cursor_at(index);
        if let Some(word) = cursor.next_word() {
            return Some(LentDraw::Word(word));
        }
        match cursor.next_order() {
            Some(order) => Some(LentDraw::Order(order)),
            None => None,
        }
    }

    /// How many draws it has.
    pub fn len(&self) -> usize
        ensures value { result ≡ length self.now }
        ensures short { length self.now + 1 < 2 ^ 64 }
    {
        self.words.len() + self.orders.len()
    }

    /// Whether it has no draw.
    pub fn is_empty(&self) -> bool
        ensures { IsTrue result ↔ (self.now ≡ []) }
    {
        self.len() == 0
    }

    // How many bytes its draws take, for the one reservation.
    pub(crate) fn count_bytes(&self) -> usize {
        let mut count = self.words.len().saturating_mul(8);
        for placed in &self.orders {
            count = count.saturating_add(placed.order.len().saturating_mul(4));
        }
        count
    }

    /// A reader that stands before the first draw.
    pub fn cursor(&self) -> Cursor<'_>
        ensures { result ≡ record { draws = self.now; place = 0 } }
    {
        Cursor::new(self.words.as_slice(), self.orders.as_slice(), 0, 0)
    }

    /// A reader that stands before the draw of a place, or behind the last draw.
    pub fn cursor_at(&self, place: usize) -> Cursor<'_>
        requires { place ≤ length self.now }
        ensures { result ≡ record { draws = self.now; place = place } }
    {
        let passed = orders_before(&self.words, &self.orders, place);
        Cursor::new(self.words.as_slice(), self.orders.as_slice(), place, passed)
    }
}

// How many of the draws are words.
fn count_words(draws: &[Draw]) -> usize {
    draws
        .iter()
        .filter(|draw| matches!(draw, Draw::Word(_)))
        .count()
}
