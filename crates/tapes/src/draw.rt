use crate::needs::Needs;
use crate::order::Order;
use std::alloc::{AllocError, Global};

/// What a step of a protocol draws next from a tape.
#[derive(Clone, Copy, Debug, PartialEq, Eq)]
pub enum Need {
    /// A word of 64 bits.
    Word,
    /// An order of this many items.
    OrderOf(u32),
}

/// A recorded random choice.
#[derive(Debug, Drop)]
pub enum Draw {
    /// A word of 64 bits.
    Word(u64),
    /// A permutation.
    Order(Order),
}

/// A draw that a tape lends: it keeps its words side by side, so a word is given as it is.
#[derive(Clone, Copy, Debug)]
pub enum LentDraw<'a> {
    /// A word of 64 bits.
    Word(u64),
    /// A permutation.
    Order(&'a Order),
}

impl Draw {
    ghost use Rattle.std.specs.Prelude.{◌≡◌, IfOk};

    /// An equal draw in memory of its own.
    pub fn copy(&self, alloc: Global) -> Result<Draw, AllocError>
        ensures { IfOk result (λ draw. draw ≡ self.now) }
    {
        match self {
            Draw::Word(word) => Ok(Draw::Word(*word)),
            Draw::Order(order) => Ok(Draw::Order(order.copy(alloc)?)),
        }
    }
}

/// The draws that the steps of a protocol take from each of the three tapes, in order.
#[derive(Debug, Drop)]
pub struct Schedule {
    pub first: Needs,
    pub second: Needs,
    pub third: Needs,
}
